// Room for bytes that are read. That a buffer has its length is all that is said of it.
ghost use Rattle.std.specs.Prelude.{◌≡◌, length};

// 4,096 zeros, which hold any path.
pub fn buffer() -> [u8; 4096]
    ensures { 4096 ≡ length result }
{
    [0; 4096]
}

// 65,536 zeros, for much data.
pub fn large_buffer() -> [u8; 65536]
    ensures { 65536 ≡ length result }
{
    [0; 65536]
}
