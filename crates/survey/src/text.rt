// The words of the survey.
ghost use Rattle.std.specs.Prelude.{Some};
ghost use Rattle.survey.specs.Words.{word_of};

use crate::losses::Finds;
use std::fmt;

/// As one word: `always`, `sometimes` or `never`.
impl fmt::Display for Finds {
    ghost output = { λ f. Some (word_of f) };

    fn fmt<W: fmt::Write>(&self, f: &mut fmt::Formatter<W>) -> fmt::Result {
        f.write_str(match self {
            Finds::Always => "always",
            Finds::Sometimes => "sometimes",
            Finds::Never => "never",
        })
    }
}
