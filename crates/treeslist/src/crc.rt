// CRC-32, by which the list tells payloads apart.

// The polynomial, its lowest power at the top bit.
const POLYNOMIAL: u32 = 0xEDB8_8320;

fn shifted(crc: u32) -> u32 {
    if crc % 2 == 1 {
        (crc >> 1) ^ POLYNOMIAL
    } else {
        crc >> 1
    }
}

pub fn crc32(bytes: &[u8]) -> u32 {
    let mut crc = u32::MAX;
    for b in bytes {
        crc ^= u32::from(*b);
        for _ in 0..8 {
            crc = shifted(crc);
        }
    }
    crc ^ u32::MAX
}
