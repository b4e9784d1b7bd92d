ghost use Rattle.std.specs.Prelude.{◌≡◌};
ghost use Rattle.demo.specs.Reports.{last_line};

/// The last line of a text of lines.
pub fn last_line(text: &[u8]) -> &[u8]
    ensures { result.now ≡ last_line text.now }
{
    let mut line = text;
    for i in 0..text.len() {
        if text[i] == b'\n' && i + 1 < text.len() {
            line = &text[i + 1..];
        }
    }
    line
}
