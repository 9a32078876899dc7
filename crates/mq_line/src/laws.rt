//! Laws of the definitions in `specs/`. These functions compute nothing: the contract of each is
//! the law.
ghost use Rattle.std.specs.Prelude.{◌≡◌, ◌++◌, ◌⊎◌, [], ℕ, List, None};
ghost use Rattle.std.specs.List.{concat};
ghost use Rattle.mq_line.specs.Grammar.{Meaning, Reads, fault};
ghost use Rattle.mq_line.specs.Text.{IsLine, IsTooLong, Holds, lines, left, lines_by_piece};
ghost use Rattle.mq_line.specs.Text.{left_by_piece};

/// No line has two meanings, and a line has a meaning exactly where it has no fault.
pub fn one_meaning()
    ensures unique { (line : List ℕ) (m n : Meaning) → Reads line m → Reads line n → m ≡ n }
    ensures no_fault { (line : List ℕ) (m : Meaning) → Reads line m → fault line ≡ None }
    ensures total { (line : List ℕ) → fault line ≡ None → (m : Meaning) × Reads line m }
{}

/// A text is its lines, an LF after each, and what follows them: bytes that may become a line, or
/// too many for one. No other lines are.
pub fn one_splitting()
    ensures whole { (text : List ℕ) → Holds text (lines text) (left text) }
    ensures end { (text : List ℕ) → IsLine (left text) ⊎ IsTooLong (left text) }
    ensures unique { (text : List ℕ) (ls : List (List ℕ)) (rest : List ℕ) →
        Holds text ls rest → IsLine rest ⊎ IsTooLong rest → (lines text ≡ ls) × (left text ≡ rest) }
{}

/// Later bytes change no line that is there, so a text has the same lines however it is cut.
pub fn any_cutting()
    // The lines of a text are those that were taken and those of the rest.
    ensures held { (text : List ℕ) (taken : List (List ℕ)) (rest : List ℕ) →
        Holds text taken rest → (lines text ≡ taken ++ lines rest) × (left text ≡ left rest) }
    ensures more { (text more : List ℕ) →
        (lines (text ++ more) ≡ lines text ++ lines (left text ++ more))
        × (left (text ++ more) ≡ left (left text ++ more)) }
    // What is too long stays so, whatever comes.
    ensures too_long { (rest more : List ℕ) → IsTooLong rest → IsTooLong (rest ++ more) }
    // Lines that are taken after each piece are those of the whole text.
    ensures pieces { (pieces : List (List ℕ)) →
        (lines_by_piece [] pieces ≡ lines (concat pieces))
        × (left_by_piece [] pieces ≡ left (concat pieces)) }
{}
