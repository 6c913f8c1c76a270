// The forms of the words.
ghost use Rattle.std.specs.Prelude.{◌≡◌, List, ℕ, map, MatchOption, None, Some, string_bytes};
ghost use Rattle.std.specs.Option.{option_map};
ghost use Rattle.guest_cli.specs.Words.{command_of, is_rounds};
ghost use Rattle.guest_cli.specs.Asked.{asked_by};

/// What the words ask for.
#[derive(Clone, Copy, Drop)]
pub enum Command<'a> {
    /// A replay of the tape, with the names of three files.
    Replay {
        plan: &'a str,
        tape: &'a str,
        entropy: &'a str,
    },
    /// A session over a host made from a store list, with the names of three files and of the one for the tape.
    Serve {
        plan: &'a str,
        store: &'a str,
        entropy: &'a str,
        tape_out: &'a str,
    },
    /// A form that isn't served yet.
    Soak,
}

// One digit from 1 to 8.
fn is_rounds(word: &str) -> bool
    ensures { result ≡ is_rounds word.now }
{
    match word.as_bytes() {
        [digit] => *digit >= b'1' && *digit <= b'8',
        _ => false,
    }
}

/// The form of the words: None where they are none of the forms.
pub fn command_of(words: &[String]) -> Option<Command<'_>>
    ensures { option_map asked_by result ≡ command_of (map string_bytes words.now) }
{
    match words {
        [word, rounds] if word.as_str() == "soak" && is_rounds(rounds.as_str()) => {
            Some(Command::Soak)
        }
        [word, plan, tape, entropy] if word.as_str() == "replay" => Some(Command::Replay {
            plan: plan.as_str(),
            tape: tape.as_str(),
            entropy: entropy.as_str(),
        }),
        [word, plan, store, entropy, tape_out] if word.as_str() == "serve" => {
            Some(Command::Serve {
                plan: plan.as_str(),
                store: store.as_str(),
                entropy: entropy.as_str(),
                tape_out: tape_out.as_str(),
            })
        }
        _ => None,
    }
}
