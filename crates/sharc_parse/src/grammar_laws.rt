// The laws, each the contract of a function that does nothing.

ghost use Rattle.std.specs.Prelude.{◌≡◌, ℕ, ◌+◌, ◌-◌, ◌<◌, ◌≤◌, Bool, false, List, [], length, slice_index_or};
ghost use Rattle.std.specs.Prelude.{AllPairs, Contains};
ghost use Rattle.sharc_tree.specs.{Tree.{Expression, cast, Statement, Program}, Measures.height as height_of};
ghost use Rattle.sharc_tree.specs.{Measures.nesting_of, Low.{is_cast, low_height, IsLow}, Marks.{a_name, number_of}};
ghost use Rattle.sharc_tree.specs.{Marks.{Stand, items_marks}, Placed.{IsSpan, Placed, PlacedStatement, IsPlaced}};
ghost use Rattle.sharc_tree.specs.{Spans.{span_of, span_of_statement}, declared.token.Site.Site};
ghost use Rattle.sharc_tree.specs.{declared.token.Span.Span, declared.token.Token.Token};
ghost use Rattle.sharc_tree.specs.declared.token.TokenKind.TheVariants.{Identifier as IdentifierKind};
ghost use Rattle.sharc_tree.specs.{declared.token.Tokens.Tokens, declared.tree.declaration.WrittenType.WrittenType};
ghost use Rattle.sharc_parse.specs.Grammar.{Word, Phrase, Callable, Part, IsProgram, program_words, FirstFault};
ghost use Rattle.sharc_parse.specs.Limits.{height, deepest, LowProgram, ReadWithin, StuckAt, Over, reads_within};
ghost use Rattle.sharc_parse.specs.{Limits.{FirstWrong, FirstExcess}, Machine.{Read, Stuck, reads, first_state}};
ghost use Rattle.sharc_parse.specs.{Places.{Reads, expression_at, function_at}, Faults.{IsFault, wrong_code}};
ghost use Rattle.sharc_parse.specs.declared.fault.GrammarFault.TheVariants.{Deep};

/// The machine reads each program of the grammar: so no two programs have the same words.
pub fn reads_each_program()
    ensures { (p : List Part) → IsProgram p → reads (program_words p []) first_state ≡ Read p }
{}

/// What the machine reads is a program of the grammar with these words.
pub fn reads_only_programs()
    ensures { (all : List Word) → (p : List Part) → reads all first_state ≡ Read p
        → IsProgram p × (program_words p [] ≡ all) }
{}

/// Where the machine stops, the words before it begin a program, and with the next word they begin none.
pub fn stops_at_first_fault()
    ensures { (all : List Word) → (rest : List Word) → reads all first_state ≡ Stuck rest → FirstFault all rest }
{}

/// The machine that tests the limits reads each program within them.
pub fn reads_each_within()
    ensures { (p : List Part) → IsProgram p → LowProgram p
        → reads_within (program_words p []) first_state ≡ ReadWithin p }
{}

/// What it reads is a program within the limits with these words.
pub fn reads_only_within()
    ensures { (all : List Word) → (p : List Part) → reads_within all first_state ≡ ReadWithin p
        → IsProgram p × LowProgram p × (program_words p [] ≡ all) }
{}

/// Where it is stuck, the words before it begin a program within the limits, and with the next word they begin none at
/// all.
pub fn stuck_at_first_wrong()
    ensures { (all : List Word) → (rest : List Word) → reads_within all first_state ≡ StuckAt rest
        → FirstWrong all rest }
{}

/// Where it is over a limit, the words before it begin a program within the limits; with the next word they begin a
/// program, but none within them.
pub fn over_at_first_excess()
    ensures { (all : List Word) → (rest : List Word) → reads_within all first_state ≡ Over rest → FirstExcess all rest }
{}

/// Tokens have one reading at most: the tree, with the places of all its nodes, is determined.
pub fn one_reading()
    ensures { (tokens : Tokens) → (p : Program) → (q : Program) → Reads tokens p → Reads tokens q → p ≡ q }
{}

/// The height that is limited is that of the tree's expression.
pub fn height_is_of_tree()
    ensures { (sites : (ℕ → Site)) → (n : ℕ) → (x : Phrase) → height_of (expression_at sites n x) ≡ height x }
{}

/// The nesting that is limited is that of the tree's function.
pub fn nesting_is_of_tree()
    ensures { (sites : (ℕ → Site)) → (n : ℕ)
        → (f : Callable) → nesting_of (function_at sites n f) ≡ deepest f.body + 1 }
{}

/// Where the machine that tests the limits is stuck after n words, n is the first fault: P3 at a word that is left out,
/// else P1.
pub fn stuck_at_fault()
    ensures { (all : List Word) → (rest : List Word) → (n : ℕ) → n ≡ length all - length rest
        → reads_within all first_state ≡ StuckAt rest → IsFault all (wrong_code rest) n }
{}

/// Where it is over a limit after n words, n is the first fault, and P2.
pub fn over_at_fault()
    ensures { (all : List Word) → (rest : List Word) → (n : ℕ) → n ≡ length all - length rest
        → reads_within all first_state ≡ Over rest → IsFault all Deep n }
{}

/// A program that is read is within the limits, and in the forms of the grammar.
pub fn programs_are_low()
    ensures { (tokens : Tokens) → (p : Program) → Reads tokens p → IsLow p }
{}

/// A cast around an expression that is not one leaves the height that is limited as it was.
pub fn casts_add_no_height()
    ensures { (s : Span) → (t : WrittenType) → (a : Expression) → is_cast a ≡ false
        → low_height (cast s t a) ≡ low_height a }
{}

/// A program that is read lies at its tokens.
pub fn programs_are_placed()
    ensures { (tokens : Tokens) → (p : Program) → Reads tokens p → IsPlaced p }
{}

/// In a program that lies at its tokens each name and each cast is the word at its token, and their numbers rise.
pub fn names_stand_in_order()
    ensures { (p : Program) → IsPlaced p → Stand p.tokens.list 0 (items_marks p.items) }
{}

/// So no two of them have one token.
pub fn names_have_tokens_of_their_own()
    ensures { (p : Program) → IsPlaced p → AllPairs (λ x y. number_of x < number_of y) (items_marks p.items) }
{}

/// In a program that lies at its tokens no name is left out.
pub fn each_name_token_is_named()
    ensures { (p : Program) → IsPlaced p
        → (n : ℕ) → (t : Token) → n < length p.tokens.list → (slice_index_or p.tokens.list n t).kind ≡ IdentifierKind
        → Contains (items_marks p.items) (a_name n (slice_index_or p.tokens.list n t).text) }
{}

/// A span of tokens is what `print_span` takes.
pub fn spans_can_be_printed()
    ensures { (all : List Token) → (s : Span) → IsSpan all s
        → (s.first.token ≤ s.last.token) × (s.last.token < length all) }
{}

/// So is that of an expression that lies at its tokens.
pub fn expressions_can_be_printed()
    ensures { (all : List Token) → (e : Expression) → Placed all e
        → ((span_of e).first.token ≤ (span_of e).last.token) × ((span_of e).last.token < length all) }
{}

/// And that of a statement.
pub fn statements_can_be_printed()
    ensures { (all : List Token) → (a : Statement) → PlacedStatement all a
        → ((span_of_statement a).first.token ≤ (span_of_statement a).last.token)
        × ((span_of_statement a).last.token < length all) }
{}
