// The forms of the words.
ghost use Rattle.std.specs.Prelude.{◌≡◌, List, ℕ, map, string_bytes, IfOk};
ghost use Rattle.guest_images.specs.Words.{wish_of};
ghost use Rattle.guest_images.specs.Asked.{HasRoom, SaltRead, WordsRead};

use crate::status::Status;
use mg_base::Salt;
use text_lines::{LineFault, page_salt};

/// What the words ask for.
#[derive(Drop)]
pub enum Request<'a> {
    /// The idsig of a file under a salt, stored under a name.
    Idsig {
        file: &'a str,
        salt: Salt,
        out: &'a str,
    },
    /// The measure of a file under a salt.
    Measure {
        file: &'a str,
        salt: Salt,
    },
    /// The composite disk of a list, stored under a name.
    Composite {
        list: &'a str,
        out: &'a str,
    },
    /// The instance image of a list, stored under a name.
    Instance {
        list: &'a str,
        out: &'a str,
    },
}

// A word that is to be a salt.
fn salt_of(word: &str) -> Result<Salt, Status>
    ensures { SaltRead result word.now }
{
    match page_salt(word.as_bytes()) {
        Ok(salt) => Ok(salt),
        Err(LineFault::Kind(_)) => Err(Status::Usage),
        Err(LineFault::Memory) => Err(Status::Memory),
    }
}

/// The form of the words: `Usage` exactly where they are none of the forms.
pub fn request_of(words: &[String]) -> Result<Request<'_>, Status>
    ensures value { WordsRead result (wish_of (map string_bytes words.now)) }
    // The OUT of a composite disk is short.
    ensures short { IfOk result HasRoom }
{
    match words {
        [word, file, salt] if word.as_str() == "measure" => match salt_of(salt.as_str()) {
            Ok(salt) => Ok(Request::Measure {
                file: file.as_str(),
                salt,
            }),
            Err(status) => Err(status),
        },
        [word, list, out] if word.as_str() == "composite" && out.as_str().len() <= 250 => {
            Ok(Request::Composite {
                list: list.as_str(),
                out: out.as_str(),
            })
        }
        [word, list, out] if word.as_str() == "instance" => Ok(Request::Instance {
            list: list.as_str(),
            out: out.as_str(),
        }),
        [word, file, salt, out] if word.as_str() == "idsig" => match salt_of(salt.as_str()) {
            Ok(salt) => Ok(Request::Idsig {
                file: file.as_str(),
                salt,
                out: out.as_str(),
            }),
            Err(status) => Err(status),
        },
        _ => Err(Status::Usage),
    }
}
