/// The image of INTK 0 0, PRINT 0, RET 0, with the number 7; one place, one register.
pub const SEVEN: [u8; 64] = [
    0x58, 0x31, 0x30, 0x50, 0, 1, 0, 1, 0, 0, 0, 1, 0, 0, 0, 1, 0, 0, 0, 0, // header
    0, 0, 0, 0, 0, 0, 0, 7, // the number 7
    0, 1, 0, 0, 0, 0, 0, 0, 0, 3, 0, 0, // one register, three instructions
    1, 0, 0, 0, 0, 0, 0, 0, 0x0f, 0, 0, 0, 0, 0, 0, 0, 0x29, 0, 0, 0, 0, 0, 0, 0,
];

/// The image `SEVEN` with another byte at one place, if there is one.
pub fn with_byte(at: usize, byte: u8) -> [u8; 64] {
    let mut bytes = SEVEN;
    if let Some(place) = bytes.get_mut(at) {
        *place = byte;
    }
    bytes
}
