// The words that a program is called with.
ghost use Rattle.std.specs.Prelude.{◌≡◌, ℕ, ◌≤◌, IfSome};
ghost use Rattle.programs.specs.Arguments.{Spells};

use std::env;

// The argument at a place, counting from 1, if there is one.
pub fn argument(rt: &HostRuntime, place: usize) -> anyhow::Result<Option<String>> {
    Ok(env::args(rt)?.nth(place))
}

// The number that the text spells, if it is one from the least to the most.
pub fn number_within(text: &str, least: usize, most: usize) -> Option<usize>
    ensures is_at_least_the_least { IfSome result (λ n. least ≤ n) }
    ensures is_at_most_the_most { IfSome result (λ n. n ≤ most) }
    ensures is_what_the_text_spells { IfSome result (λ n. Spells text.now n) }
    ensures finds_what_the_text_spells { (n : ℕ) → Spells text.now n → least ≤ n → n ≤ most → result ≡ Some n }
{
    text.parse::<usize>()
        .ok()
        .filter(|number| (least..=most).contains(number))
}
