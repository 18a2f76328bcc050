//! Numbers out of bytes, the high byte first.
ghost use Rattle.book_bytes.specs.Spelling.{ReadsTwo, ReadsFour, ReadsSigned};

// Stays: three of one shape; a trait over the three types would be longer than they are.

/// The number that two bytes spell, or none if there are not two.
pub fn read_two(bytes: &[u8]) -> Option<u16>
    ensures { ReadsTwo bytes.now result }
{
    Some(u16::from_be_bytes(bytes.try_into().ok()?))
}

/// The number that four bytes spell, or none if there are not four.
pub fn read_four(bytes: &[u8]) -> Option<u32>
    ensures { ReadsFour bytes.now result }
{
    Some(u32::from_be_bytes(bytes.try_into().ok()?))
}

// The signed number that four bytes spell in two's complement, or none if there are not four.
pub(crate) fn read_signed(bytes: &[u8]) -> Option<i32>
    ensures { ReadsSigned bytes.now result }
{
    Some(i32::from_be_bytes(bytes.try_into().ok()?))
}
