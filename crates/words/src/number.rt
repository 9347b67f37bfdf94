// The numbers that words spell, where they fit their type.
ghost use Rattle.std.specs.Prelude.{◌≡◌, ℕ, List, Option, Result};
ghost use Rattle.std.specs.Result.{result_ok};
ghost use Rattle.std.specs.declared.num.ParseIntError.{ParseIntError};
ghost use Rattle.words.specs.NumberLaws.{parsed_signed, parsed_unsigned};
ghost use Rattle.words.specs.Numbers.{signed, unsigned};

use std::num::ParseIntError;
use std::str::FromStr;

// A type of numbers that words spell.
pub trait Number: Copy + FromStr<Err = ParseIntError> {
    // The number that a word spells, if it spells one of this type.
    ghost spelled: { List ℕ → Option Self };

    // What parsing gives is that number.
    ghost parsed: { (word : List ℕ) (given : Result Self ParseIntError) → Self.from_str_gives word given → result_ok given ≡ spelled word };
}

// From 0 to 255.
impl Number for u8 {
    ghost spelled = { unsigned 8 };

    ghost parsed = { λ word given gives. parsed_unsigned 8 word given gives.0 };
}

// From 0 to 65,535.
impl Number for u16 {
    ghost spelled = { unsigned 16 };

    ghost parsed = { λ word given gives. parsed_unsigned 16 word given gives.0 };
}

// From -2,147,483,648 to 2,147,483,647.
impl Number for i32 {
    ghost spelled = { signed 31 };

    ghost parsed = { λ word given gives. parsed_signed word given gives.0 };
}

// The number that a word spells, if it spells one of the type N.
pub fn read_number<N: Number>(word: &str) -> Option<N>
    ensures { result ≡ N.spelled word.now }
{
    word.parse().ok()
}
