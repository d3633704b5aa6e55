//! Writes numbers of charstrings (Technical Note 5177, "Charstring Number Encoding").
ghost use Rattle.std.specs.Prelude.{◌≡◌, ◌++◌, ◌∷◌, ◌≤◌, ◌<◌, ◌^◌, OnOk, IfErr};
ghost use Rattle.postscript_base.specs.declared.error.Error.TheVariants as causes;
ghost use Rattle.postscript_type2.specs.Program.StackRules.{IsHeld};
ghost use Rattle.postscript_variable.specs.Defaults.{AreHeld};
ghost use Rattle.postscript_instance.specs.declared.error.Error.TheVariants as errors;
ghost use Rattle.postscript_instance.specs.Numbers.{pair, two_bytes, four_bytes, whole_above, whole_below, whole_text, bits_text, number_text, numbers_text};

use crate::error::Result;
use postscript_type2::Operand;

/// Appends two bytes, the first counted from a base.
fn put_pair(out: &mut Vec<u8>, first: u8, number: u16) -> Result<()>
    requires first { first ≤ 251 }
    requires number { number < 1024 }
    ensures ok { OnOk result (out.new.items ≡ out.old.items ++ pair first number) }
    ensures err { IfErr result (λ e. e ≡ errors.Font causes.Memory) }
{
    out.extend_from_slice(&[first + (number / 256) as u8, (number % 256) as u8])?;
    Ok(())
}

/// Appends a whole number after the byte 1c.
fn put_word(out: &mut Vec<u8>, number: u16) -> Result<()>
    ensures ok { OnOk result (out.new.items ≡ out.old.items ++ 0x1c ∷ two_bytes number) }
    ensures err { IfErr result (λ e. e ≡ errors.Font causes.Memory) }
{
    out.extend_from_slice(&[0x1c, (number / 256) as u8, (number % 256) as u8])?;
    Ok(())
}

/// Appends a whole number from 0 on.
fn put_above(out: &mut Vec<u8>, number: u16) -> Result<()>
    ensures ok { OnOk result (out.new.items ≡ out.old.items ++ whole_above number) }
    ensures err { IfErr result (λ e. e ≡ errors.Font causes.Memory) }
{
    if number < 108 {
        out.push(139 + number as u8)?;
        return Ok(());
    }
    if number < 1132 {
        return put_pair(out, 247, number - 108);
    }
    put_word(out, number)
}

/// Appends a negative whole number by its distance from 0.
fn put_below(out: &mut Vec<u8>, number: u16) -> Result<()>
    requires { 0 < number }
    ensures ok { OnOk result (out.new.items ≡ out.old.items ++ whole_below number) }
    ensures err { IfErr result (λ e. e ≡ errors.Font causes.Memory) }
{
    if number < 108 {
        out.push(139 - number as u8)?;
        return Ok(());
    }
    if number < 1132 {
        return put_pair(out, 251, number - 108);
    }
    put_word(out, (65536 - u32::from(number)) as u16)
}

/// Appends a whole number in its shortest encoding.
fn put_whole(out: &mut Vec<u8>, number: i16) -> Result<()>
    ensures ok { OnOk result (out.new.items ≡ out.old.items ++ whole_text number) }
    ensures err { IfErr result (λ e. e ≡ errors.Font causes.Memory) }
{
    let size = number.unsigned_abs();
    if number < 0 {
        put_below(out, size)
    } else {
        put_above(out, size)
    }
}

/// Appends the 32 bits of a number after the byte ff.
fn put_bits(out: &mut Vec<u8>, bits: i32) -> Result<()>
    ensures ok { OnOk result (out.new.items ≡ out.old.items ++ bits_text bits) }
    ensures err { IfErr result (λ e. e ≡ errors.Font causes.Memory) }
{
    let size = u64::from(bits.unsigned_abs());
    let word = if bits < 0 { 4_294_967_296 - size } else { size };
    out.extend_from_slice(&[
        0xff,
        (word / 16_777_216) as u8,
        (word / 65536 % 256) as u8,
        (word / 256 % 256) as u8,
        (word % 256) as u8,
    ])?;
    Ok(())
}

/// Appends a number: a whole one in its shortest encoding, any other by its 16.16 bits.
pub(crate) fn put_number(out: &mut Vec<u8>, number: Operand) -> Result<()>
    ensures ok { OnOk result (out.new.items ≡ out.old.items ++ number_text number) }
    ensures held { IsHeld number }
    ensures err { IfErr result (λ e. e ≡ errors.Font causes.Memory) }
{
    match number.to_int() {
        Some(whole) => put_whole(out, whole),
        None => put_bits(out, number.bits()),
    }
}

/// Appends numbers.
pub(crate) fn put_numbers(out: &mut Vec<u8>, numbers: &[Operand]) -> Result<()>
    ensures ok { OnOk result (out.new.items ≡ out.old.items ++ numbers_text numbers.now) }
    ensures held { OnOk result (AreHeld numbers.now) }
    ensures err { IfErr result (λ e. e ≡ errors.Font causes.Memory) }
{
    for number in numbers {
        put_number(out, *number)?;
    }
    Ok(())
}
