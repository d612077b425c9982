//! Words that clap takes, and that leave unclear what is asked.
ghost use Rattle.std.specs.Prelude.{◌≡◌};
ghost use Rattle.canary_cli_words.specs.Unclear.{unclear_if, unclear_of};

use crate::words::Program;

// The report on words of `check` that name no file, or two, laid out as clap says what is wrong
// with words.
const CHECKED: &str = concat!(
    "error: check takes FILE or --request FILE, one of them\n\n",
    "Usage: canary check [OPTIONS] [FILE]\n\n",
    "For more information, try '--help'.\n"
);

// The same of words of `status` that ask for two forms.
const FORM: &str = concat!(
    "error: status takes --json or --prometheus, not both\n\n",
    "Usage: canary status [OPTIONS] --db <FILE>\n\n",
    "For more information, try '--help'.\n"
);

// The same of words of `backup` that say how many copies to keep of one.
const KEPT: &str = concat!(
    "error: backup takes --keep only with --every\n\n",
    "Usage: canary backup [OPTIONS] --db <FILE> <COPY>\n\n",
    "For more information, try '--help'.\n"
);

/// What words that clap takes leave unclear.
#[derive(Clone, Copy, Debug, PartialEq, Eq)]
pub enum Unclear {
    /// What `check` is to check: they name no file, or two.
    Checked,
    /// In which form `status` is to print: they ask for two.
    Form,
    /// What `backup` is to keep: they say how many copies, and not how often one is made.
    Kept,
}

impl Unclear {
    /// What standard error says of it.
    pub fn text(self) -> &'static str {
        match self {
            Unclear::Checked => CHECKED,
            Unclear::Form => FORM,
            Unclear::Kept => KEPT,
        }
    }
}

/// What the words of a program leave unclear, if they do.
pub fn unclear_of(program: &Program) -> Option<Unclear>
    ensures { result ≡ unclear_of program.now }
{
    match program {
        Program::Check { file, request, .. } => {
            unclear_if(file.is_some() == request.is_some(), Unclear::Checked)
        }
        Program::Status {
            json,
            prometheus,
            ..
        } => unclear_if(*json && *prometheus, Unclear::Form),
        Program::Backup { every, keep, .. } => {
            unclear_if(every.is_none() && keep.is_some(), Unclear::Kept)
        }
        _ => None,
    }
}

// This, if it is so.
fn unclear_if(is_so: bool, why: Unclear) -> Option<Unclear>
    ensures { result ≡ unclear_if is_so why }
{
    if is_so { Some(why) } else { None }
}
