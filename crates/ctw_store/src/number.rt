// Numbers of 1, 2, 4 and 8 bytes, the lowest byte first.
ghost use Rattle.std.specs.Prelude.{◌≡◌, length};
ghost use Rattle.ctw_semantics.specs.Stores.{number_of_bytes, bytes_of_number};

#[inline(always)]
pub fn read_u16(bytes: &[u8]) -> u64
    requires { length bytes.now ≡ 2 }
    ensures { result ≡ number_of_bytes bytes.now }
{
    u16::from_le_bytes([bytes[0], bytes[1]]) as u64
}

#[inline(always)]
pub fn read_u32(bytes: &[u8]) -> u64
    requires { length bytes.now ≡ 4 }
    ensures { result ≡ number_of_bytes bytes.now }
{
    u32::from_le_bytes([bytes[0], bytes[1], bytes[2], bytes[3]]) as u64
}

#[inline(always)]
pub fn read_u64(bytes: &[u8]) -> u64
    requires { length bytes.now ≡ 8 }
    ensures { result ≡ number_of_bytes bytes.now }
{
    u64::from_le_bytes([
        bytes[0], bytes[1], bytes[2], bytes[3], bytes[4], bytes[5], bytes[6], bytes[7],
    ])
}

#[inline(always)]
pub fn write_u16(bytes: &mut [u8], value: u64)
    requires { length bytes.old ≡ 2 }
    ensures { bytes.new ≡ bytes_of_number 2 value }
{
    let low = (value % 0x1_0000) as u16;
    bytes.copy_from_slice(&low.to_le_bytes());
}

#[inline(always)]
pub fn write_u32(bytes: &mut [u8], value: u64)
    requires { length bytes.old ≡ 4 }
    ensures { bytes.new ≡ bytes_of_number 4 value }
{
    let low = (value % 0x1_0000_0000) as u32;
    bytes.copy_from_slice(&low.to_le_bytes());
}

#[inline(always)]
pub fn write_u64(bytes: &mut [u8], value: u64)
    requires { length bytes.old ≡ 8 }
    ensures { bytes.new ≡ bytes_of_number 8 value }
{
    bytes.copy_from_slice(&value.to_le_bytes());
}
