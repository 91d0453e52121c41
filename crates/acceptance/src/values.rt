// Lists of values: the symbols of an outer word, the bytes of an inner word, a payload or a block, the counts of a report.

// The longest list that a row lends: one byte more than a frame.
pub(crate) const MOST: usize = frames::Frame::BYTES + 1;

pub(crate) fn to_bytes(values: &[u16], bytes: &mut [u8]) {
    for (byte, value) in bytes.iter_mut().zip(values) {
        *byte = (*value % 256) as u8;
    }
}

pub(crate) fn from_bytes(bytes: &[u8], values: &mut [u16]) {
    for (value, byte) in values.iter_mut().zip(bytes) {
        *value = u16::from(*byte);
    }
}

// A number that tells lists apart.
pub(crate) fn digest(values: &[u16]) -> u64 {
    let mut h: u64 = 0;
    for value in values {
        h = (257 * h + u64::from(*value) + 1) % 1_000_000_007;
    }
    h
}

pub(crate) fn nines(values: &[u16]) -> usize {
    values.iter().filter(|value| **value == 9).count()
}
