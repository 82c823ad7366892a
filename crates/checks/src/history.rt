// The lines of a history. A length above 16 stands for all 16 places.
ghost use Rattle.std.specs.Prelude.{◌≡◌, min};

// How many lines a length stands for.
pub fn lines_in(len: u8) -> u8
    ensures { result ≡ min len 16 }
{
    len.min(16)
}
