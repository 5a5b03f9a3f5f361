// The words of a text, as parts of it.

ghost use Rattle.std.specs.Prelude.{◌≡◌, ◌≤◌, length};
ghost use Rattle.std.specs.List.{prefix_len};
ghost use Rattle.notation.specs.Words.{blank as blank_of, in_word as in_word_of, not_feed, first_word, after_word};

fn blank(c: u8) -> bool
    ensures { result ≡ blank_of c }
{
    matches!(c, b' ' | b'\t' | b'\r')
}

fn in_word(c: u8) -> bool
    ensures { result ≡ in_word_of c }
{
    !(blank(c) || c == b'#')
}

// how many blanks a text begins with; one function for the three tests would be no plainer: its clause would have to assume of a
// closure that it computes a test, where these name theirs
fn blanks(t: &[u8]) -> usize
    ensures { (result ≡ prefix_len blank_of t.now) × (result ≤ length t.now) }
{
    t.iter().take_while(|c| blank(**c)).count()
}

// how many characters of a word it begins with
fn word_len(t: &[u8]) -> usize
    ensures { (result ≡ prefix_len in_word_of t.now) × (result ≤ length t.now) }
{
    t.iter().take_while(|c| in_word(**c)).count()
}

// how many characters stand before its first line feed
pub(crate) fn line_len(t: &[u8]) -> usize
    ensures { (result ≡ prefix_len not_feed t.now) × (result ≤ length t.now) }
{
    t.iter().take_while(|c| **c != b'\n').count()
}

// The words of a line that are left.
#[derive(Drop)]
pub(crate) struct Words<'a> {
    pub(crate) left: &'a [u8],
}

impl<'a> Words<'a> {
    // the first word, empty where there is none; what follows it is left
    #[tactic(auto, unfolding(crate::specs::Words::first_word, crate::specs::Words::after_word))]
    pub(crate) fn word(&mut self) -> &'a [u8]
        ensures { (result.now ≡ first_word self.old.left.now) × (self.new.left.now ≡ after_word self.old.left.now) }
    {
        let text = &self.left[blanks(self.left)..];
        let (word, left) = text.split_at(word_len(text));
        self.left = left;
        word
    }
}
