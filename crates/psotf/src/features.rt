//! The layout features that a subset with new glyph numbers keeps.
use clap::ArgMatches;
use postscript_subset::Features as Chosen;
use psotf_output::failure::Failure;
use std::alloc::Global;

/// The features that are kept by default: those of HarfBuzz's `hb-subset`.
const USUAL: &str =
    "rvrn,ccmp,liga,locl,mark,mkmk,rlig,frac,numr,dnom,calt,clig,curs,kern,rclt,valt,vert,vkrn,vpal,vrt2,ltra,ltrm,rtla,rtlm,rand,jalt,Harf,HARF,Buzz,BUZZ,init,medi,fina,isol,med2,fin2,fin3,cswh,mset,stch,ljmo,vjmo,tjmo,nukt,akhn,rphf,rkrf,pref,blwf,half,abvf,pstf,cfar,vatu,cjct,pres,abvs,blws,psts,haln,dist,abvm,blwm";

/// The features that a subset keeps.
#[derive(Drop)]
pub struct Features {
    all: bool,
    tags: Vec<u32>,
}

/// Returns a byte of a tag. A tag of less than four bytes ends with spaces.
fn byte_of(bytes: &[u8], i: usize) -> u8 {
    bytes.get(i).copied().unwrap_or(b' ')
}

/// Parses a tag of one to four bytes.
fn tag_of(word: &str) -> Option<u32> {
    let bytes = word.as_bytes();
    match bytes.len() {
        1..=4 => Some(u32::from_be_bytes([
            byte_of(bytes, 0),
            byte_of(bytes, 1),
            byte_of(bytes, 2),
            byte_of(bytes, 3),
        ])),
        _ => None,
    }
}

impl Features {
    /// Adds the feature with a tag.
    fn put(&mut self, word: &str) -> Result<(), Failure> {
        match tag_of(word) {
            Some(tag) => Ok(self.tags.push(tag)?),
            None => Err(Failure::usage(
                "--layout-features takes a list of tags, e.g. liga,kern, or * for all features",
            )),
        }
    }

    /// Adds the features of a list of tags.
    fn put_list(&mut self, list: &str) -> Result<(), Failure> {
        for word in list.split(',') {
            self.put(word)?;
        }
        Ok(())
    }

    /// Returns the features that the arguments choose.
    pub fn read(alloc: Global, words: &ArgMatches<'_>) -> Result<Features, Failure> {
        let list = words.get_str("layout-features").unwrap_or(USUAL);
        let mut features = Features {
            all: list == "*",
            tags: Vec::new(alloc),
        };
        if !features.all && !list.is_empty() {
            features.put_list(list)?;
        }
        Ok(features)
    }

    /// Returns the features as the library takes them.
    pub fn for_library(&self) -> Chosen<'_> {
        if self.all {
            Chosen::All
        } else {
            Chosen::These(&self.tags)
        }
    }
}
