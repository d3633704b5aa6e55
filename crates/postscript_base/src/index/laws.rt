//! Laws about opening an INDEX that stays in its bytes.
ghost use Rattle.postscript_base.specs.Index.{OpensIndices, OpensNoOthers};

/// States that an INDEX is opened exactly if it is laid out at the offset. It does nothing at run time.
pub fn opens_indices()
    // `opened` gives items and an end exactly if an INDEX with them is laid out there.
    ensures law { OpensIndices }
    // `opened` fails exactly if the INDEX is truncated or its offset size is not from 1 to 4.
    ensures fails { OpensNoOthers }
{}
