ghost use Rattle.std.specs.Prelude.{◌≡◌, take, drop, length, encode_utf8_all};
ghost use Rattle.std.specs.Str.{chars};

/// How many characters a text has.
pub fn char_count(text: &str) -> usize
    ensures { result ≡ length (chars text.now) }
{
    text.chars().count()
}

/// The text from character n on; the empty text where it has no more than n.
#[tactic(auto, using(crate::proofs::Cuts::rest_as_text))]
pub fn from_char(text: &str, n: usize) -> &str
    ensures chars { chars result.now ≡ drop n (chars text.now) }
    ensures text { result.now ≡ encode_utf8_all (drop n (chars text.now)) }
{
    let mut rest = text.chars();
    for _ in 0..n {
        rest.next();
    }
    rest.as_str()
}

/// The first n characters of a text; all of it where it has no more than n.
#[tactic(auto, using(crate::proofs::Cuts::seam, crate::proofs::Cuts::seam_length, crate::proofs::Cuts::front_of))]
pub fn up_to_char(text: &str, n: usize) -> &str
    ensures { result.now ≡ encode_utf8_all (take n (chars text.now)) }
{
    let rest = from_char(text, n);
    let (first, _) = text.split_at(text.len() - rest.len());
    first
}
