//! The words of the command line.

ghost use Rattle.std.specs.Prelude.{◌≡◌, map, string_bytes};
ghost use Rattle.sharc_traced.specs.Replies.{form_of};

/// What is written of a run.
#[derive(Clone, Copy)]
pub enum Form {
    /// The event file that `audit` reads.
    File,
    /// A line for each event, in the words of the source.
    Places,
}

/// The form that the words ask for: none asks for the file, and `--places` for the lines; any others are no words of
/// this program.
pub(crate) fn form_of(words: &[String]) -> Option<Form>
    ensures { result ≡ form_of (map string_bytes words.now) }
{
    if words.is_empty() {
        return Some(Form::File);
    }
    if words.len() == 1 && words[0].as_bytes() == b"--places".as_slice() {
        return Some(Form::Places);
    }
    None
}
