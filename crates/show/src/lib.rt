// How the programs write what they show, into arrays: the library's formats write text to a writer, and `lines` has lent bytes.

#![tactic(auto)]

ghost use Rattle.std.specs.Prelude.{◌≡◌, [], ◌∷◌, ◌++◌};
ghost use Rattle.show.specs.Hex.{digit, hex};

// The hexadecimal digit of the lowest four bits.
fn digit(x: u8) -> u8
    ensures { result ≡ digit x }
{
    let low = x % 16;
    if low < 10 {
        b'0' + low
    } else {
        b'a' + (low - 10)
    }
}

// A byte in hexadecimal digits.
pub fn hex_byte(x: u8) -> [u8; 2]
    ensures { result ≡ hex (x ∷ []) }
{
    [digit(x / 16), digit(x)]
}

// Twenty bytes in hexadecimal digits, and a line's end.
pub fn hex_line(id: [u8; 20]) -> [u8; 41]
    ensures { result ≡ hex id ++ (10 ∷ []) }
{
    let mut line = [b'\n'; 41];
    for (i, byte) in id.iter().enumerate() {
        let [upper, lower] = hex_byte(*byte);
        line[i * 2] = upper;
        line[i * 2 + 1] = lower;
    }
    line
}
