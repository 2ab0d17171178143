//! The reading of a whole text: its modules, one after the other.
#![tactic(auto, unfolding(crate::specs::private::Format::begins))]

ghost use Rattle.std.specs.Prelude.{◌≡◌, List, [], IfOk, IfErr, IfSome, MatchResult, MatchBool};
ghost use Rattle.std.specs.Prelude.{map, true, false, Some, ◌↔◌, ◌||◌, ℕ, OnOk};
ghost use Rattle.smi_text.specs.{lexer.Token.Lexeme, trees.Mark.TokensMatch, trees.Mark.same_text};
ghost use Rattle.smi_text.specs.{private.Names.has, trees.Spelling.spelling, trees.Lines.plain};
ghost use Rattle.smi_text.specs.{trees.Lines.without_lines, trees.Braces.IsBalanced};
ghost use Rattle.smi_text.specs.{trees.Braces.has_balanced_braces, private.Grammar.definition};
ghost use Rattle.smi_text.specs.private.Returned.{ReadsDefinitions, ReadsModule, ReadsModules};
ghost use Rattle.smi_text.specs.private.Returned.{AppendsDefinition, NewDefinitionFault};
ghost use Rattle.smi_text.specs.private.Returned.{DefinitionsFault, ModuleFault, ModulesFault};
ghost use Rattle.smi_text.specs.private.Returned.{IsLabelAhead, IsCauseOf};
ghost use Rattle.smi_text.specs.Text.{AreSpelledBy, HasNoDoubles, IsCause, BreaksOff};
ghost use Rattle.smi_text.specs.declared.trees.tree.Module.{Module as Tree};
ghost use Rattle.smi_text.specs.declared.trees.tree.TokenText.{TokenText};

use crate::error::ParseError;
use crate::lexer::{LexError, Lexer};
use crate::names;
use crate::names::Key;
use crate::parser::{Parser, keep};
use crate::trees::{Def, Items, Module};
use std::alloc::Global;
use std::collections::BTreeSet;

impl<'a> Parser<'a> {
    /// Returns the text of the token ahead if a definition can begin with it. This text is the
    /// definition's name.
    fn label(&self) -> Option<&'a [u8]>
        ensures { IsLabelAhead result self.now }
    {
        match self.peek() {
            Some(token) if self.at_definition() => Some(token.text),
            _ => None,
        }
    }

    /// Reads the definitions of a module. Fails if one of them defines a name a second time.
    fn definitions(&mut self) -> Result<Items<Def>, ParseError>
        ensures ok { IfOk result (λ defs. ReadsDefinitions defs self.old self.new) }
        ensures fault { IfErr result (λ error. DefinitionsFault error self.old) }
    {
        let mut names = self.name_set();
        let mut defs = self.list();
        'each: while let Some(label) = self.label() {
            self.new_definition(label, &mut names, &mut defs)?;
        }
        Ok(Items::new(defs))
    }

    /// Reads the definition ahead, whose name is `label`, appends it to `defs`, and adds `label`
    /// to `names`. Fails if `label` is among the names already.
    // A definition is large: this function puts it into the list, since to return it would move it
    // again.
    fn new_definition(
        &mut self,
        label: &'a [u8],
        names: &mut BTreeSet<Key<'a>>,
        defs: &mut Vec<Def>,
    ) -> Result<(), ParseError>
        ensures read { OnOk result
            (AppendsDefinition defs.old.items defs.new.items self.old self.new) }
        ensures new { OnOk result (has names.old label.now ≡ false) }
        ensures added { OnOk result ((x : List ℕ)
            → has names.new x ≡ (same_text label.now x || has names.old x)) }
        ensures fault { IfErr result (λ error.
            NewDefinitionFault error (has names.old label.now) self.old) }
    {
        let def = self.definition()?;
        let line = def.line;
        keep(defs, def)?;
        if names::add(names, label)? {
            Ok(())
        } else {
            Err(ParseError::DoubleName { line })
        }
    }

    /// Reads a module.
    fn module(&mut self) -> Result<Module, ParseError>
        ensures ok { IfOk result (λ m. ReadsModule m self.old self.new) }
        ensures fault { IfErr result (λ error. ModuleFault error self.old) }
    {
        let head = self.head()?;
        let defs = self.definitions()?;
        self.word(b"END")?;
        Ok(Module {
            name: head.name,
            heading: head.heading,
            imports: head.imports,
            defs,
        })
    }

    /// Reads modules up to the end of the text.
    fn modules(&mut self) -> Result<Vec<Module>, ParseError>
        ensures ok { IfOk result (λ ms. ReadsModules ms.items self.old) }
        ensures fault { IfErr result (λ error. ModulesFault error self.old) }
    {
        let mut modules = self.list();
        'each: while !self.is_at_end() {
            let module = self.module()?;
            keep(&mut modules, module)?;
        }
        Ok(modules)
    }
}

/// Returns the first fault of the lexer in `text`, if it has one.
fn first_fault(text: &[u8]) -> Option<LexError>
    ensures { IfSome result (λ fault. BreaksOff fault text.now) }
{
    'each: for item in Lexer::new(text) {
        if let Err(fault) = item {
            return Some(fault);
        }
    }
    None
}

/// Returns the error to report if the parser stopped with `stop`. For a fault of the lexer this is
/// the first such fault in the whole text, otherwise `stop` itself.
fn cause_of(stop: ParseError, text: &[u8]) -> ParseError
    ensures { IsCauseOf stop result text.now }
{
    match stop {
        ParseError::Lex(_) => match first_fault(text) {
            Some(fault) => ParseError::Lex(fault),
            // Not reached: the parser stops with a fault of the lexer only if the text has one.
            None => ParseError::Syntax { line: 1 },
        },
        _ => stop,
    }
}

/// Reads the modules of `text` (RFC 2578, section 3). Returns an empty list for a text that has
/// nothing but blanks and comments.
///
/// A fault anywhere refuses the whole text. The first fault in the text is reported, unless memory
/// runs out before. If a name is defined a second time, this counts as a fault at the end of its
/// second definition.
pub fn parse_modules(alloc: Global, text: &[u8]) -> Result<Vec<Module>, ParseError>
    // The text is a spelling of the modules returned, and none of them defines a name twice.
    ensures found { IfOk result (λ ms. AreSpelledBy ms.items text.now × HasNoDoubles ms.items) }
    // A text that spells such modules is read as these modules, unless memory runs out.
    ensures only { (ms : List Tree) → AreSpelledBy ms text.now → HasNoDoubles ms
        → MatchResult result (λ found. found.items ≡ ms) (λ error. error ≡ ParseError.Memory) }

    // Each error but `Memory` is returned only for its cause: the lexer's fault if the lexer stops
    // before the end, `Syntax` if the text isn't a spelling of modules, and `DoubleName` with the
    // line of the first definition whose name was defined before it in the same module.
    ensures cause { IfErr result (λ error. IsCause error text.now) }
{
    let mut parser = Parser::new(alloc, text);
    match parser.modules() {
        Ok(modules) => Ok(modules),
        Err(stop) => Err(cause_of(stop, text)),
    }
}

/// Tokens are the spelling of at most one list of modules.
///
/// A law: the call does nothing, and its caller may use what it ensures.
pub fn one_module_list()
    ensures { (ms ns : List Tree) (tokens : List Lexeme) → TokensMatch (spelling ms) tokens []
        → TokensMatch (spelling ns) tokens [] → ms ≡ ns }
{}

/// If tokens match the spellings of two lists of modules, apart from lines, then the two lists are
/// the same, apart from lines.
///
/// A law: the call does nothing, and its caller may use what it ensures.
#[tactic(auto, using(crate::proofs::Lines::same_but_lines))]
pub fn one_module_list_without_lines()
    ensures { (ms ns : List Tree) (tokens : List Lexeme)
        → TokensMatch (map plain (spelling ms)) tokens []
        → TokensMatch (map plain (spelling ns)) tokens [] →
        map without_lines ms ≡ map without_lines ns }
{}

/// Tokens pass the count of braces if and only if they are balanced: each opening brace is followed
/// by the brace that closes it, and no other token is a closing brace.
///
/// A law: the call does nothing, and its caller may use what it ensures.
#[tactic(auto, using(crate::proofs::Braces::counted, crate::proofs::Braces::balanced_counted, crate::proofs::Braces::prefixes_counted))]
pub fn balanced_braces()
    ensures { (xs : List TokenText) → has_balanced_braces xs ≡ true ↔ IsBalanced xs }
{}
