// The mode of an entry: which bits of it are kept, and which kept mode is a directory.
ghost use Rattle.std.specs.Prelude.{◌≡◌};
ghost use Rattle.entry.specs.Mode.{keep_mode, dir_at};

// Where the mode of an entry starts and where it ends.
pub const MODE_AT: usize = 24;

pub const MODE_END: usize = 28;

// A directory that a sparse index leaves out, octal 040000.
pub const DIR: u32 = 16384;

// The bits of octal 160755 of a mode.
#[tactic(auto, unfolding(crate::specs::Mode::keep_mode))]
pub fn keep_mode(m: u32) -> u32
    ensures { result ≡ keep_mode m }
{
    m / 8192 % 8 * 8192 + m / 32 % 16 * 32 + m / 4 % 4 * 4 + m % 2
}

// Whether the entry at `at` is a directory; no where the file ends before its mode does.
#[tactic(auto, unfolding(crate::specs::Mode::dir_at))]
pub fn is_dir(file: &[u8], at: usize) -> bool
    ensures { result ≡ dir_at file.now at }
{
    if file.len() < MODE_END || file.len() - MODE_END < at {
        return false;
    }
    keep_mode(wire::be32(file, at + MODE_AT)) == DIR
}
