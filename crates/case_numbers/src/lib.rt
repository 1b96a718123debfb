// The decimal writer for callers outside, who try it on numbers that no response holds (document 02, N4). No part of
// the engine. Each function writes twice: to learn the length, and into the lent buffer, which may be just long enough.
#![tactic(auto)]

ghost use Rattle.std.specs.Prelude.{length};
ghost use Rattle.byte_strings.specs.Wrote.{Writes};
ghost use Rattle.text_decimal_writer.specs.Digits.{long_bytes};
ghost use Rattle.field_values.specs.Values.{number, field_bytes};
ghost use Rattle.case_numbers.specs.Fitting.{that_fit};

// Writes a number as an N field, and answers its length; 0 where the buffer is shorter.
#[unsafe(no_mangle)]
pub extern "C" fn diminurel_case_field(buffer: &mut [u8], value: u32) -> usize
    ensures { Writes buffer 0 (that_fit (length buffer.old) (field_bytes (number value))) result }
{
    let mut field = [0; 12];
    let length = field_writer::put_number(&mut field, 0, value);
    if buffer.len() < length {
        return 0;
    }
    field_writer::put_number(buffer, 0, value)
}

// Writes the digits of a number of any size, and answers how many; 0 where the buffer is shorter.
#[unsafe(no_mangle)]
pub extern "C" fn diminurel_case_long(buffer: &mut [u8], value: u64) -> usize
    ensures { Writes buffer 0 (that_fit (length buffer.old) (long_bytes value)) result }
{
    let mut digits = [0; 20];
    let count = text_decimal_writer::put_long(&mut digits, 0, value);
    if buffer.len() < count {
        return 0;
    }
    text_decimal_writer::put_long(buffer, 0, value)
}
