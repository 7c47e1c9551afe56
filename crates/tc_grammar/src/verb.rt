//! The names that begin a line.
ghost use Rattle.std.specs.Prelude.{◌≡◌};
ghost use Rattle.tc_grammar.specs.Names.{named, retrieval_names, storage_names, other_names, verb_of};

use crate::command::{Form, StoreKind, Way};

/// The command that a name asks for.
#[derive(Clone, Copy)]
pub enum Verb {
    Store(StoreKind),
    Get(Form),
    Gat(Form),
    Delete,
    Count(Way),
    Touch,
    FlushAll,
    Stats,
    Version,
    Verbosity,
    Quit,
}

fn retrieval_named(name: &[u8]) -> Option<Verb>
    ensures { result ≡ named name.now retrieval_names }
{
    if name == b"get".as_slice() {
        return Some(Verb::Get(Form::Bare));
    }
    if name == b"gets".as_slice() {
        return Some(Verb::Get(Form::WithCas));
    }
    if name == b"gat".as_slice() {
        return Some(Verb::Gat(Form::Bare));
    }
    if name == b"gats".as_slice() {
        return Some(Verb::Gat(Form::WithCas));
    }
    None
}

fn storage_named(name: &[u8]) -> Option<Verb>
    ensures { result ≡ named name.now storage_names }
{
    if name == b"set".as_slice() {
        return Some(Verb::Store(StoreKind::Set));
    }
    if name == b"add".as_slice() {
        return Some(Verb::Store(StoreKind::Add));
    }
    if name == b"replace".as_slice() {
        return Some(Verb::Store(StoreKind::Replace));
    }
    if name == b"append".as_slice() {
        return Some(Verb::Store(StoreKind::Append));
    }
    if name == b"prepend".as_slice() {
        return Some(Verb::Store(StoreKind::Prepend));
    }
    if name == b"cas".as_slice() {
        return Some(Verb::Store(StoreKind::Cas));
    }
    None
}

fn other_named(name: &[u8]) -> Option<Verb>
    ensures { result ≡ named name.now other_names }
{
    if name == b"incr".as_slice() {
        return Some(Verb::Count(Way::Incr));
    }
    if name == b"decr".as_slice() {
        return Some(Verb::Count(Way::Decr));
    }
    if name == b"delete".as_slice() {
        return Some(Verb::Delete);
    }
    if name == b"touch".as_slice() {
        return Some(Verb::Touch);
    }
    if name == b"flush_all".as_slice() {
        return Some(Verb::FlushAll);
    }
    if name == b"stats".as_slice() {
        return Some(Verb::Stats);
    }
    if name == b"version".as_slice() {
        return Some(Verb::Version);
    }
    if name == b"verbosity".as_slice() {
        return Some(Verb::Verbosity);
    }
    if name == b"quit".as_slice() {
        return Some(Verb::Quit);
    }
    None
}

/// Returns the command of a name, in lower case as doc/protocol.txt has it; `None` for any other
/// text.
#[tactic(auto, unfolding(crate::specs::Names::verb_of))]
pub fn verb_named(name: &[u8]) -> Option<Verb>
    ensures { result ≡ verb_of name.now }
{
    if let Some(verb) = retrieval_named(name) {
        return Some(verb);
    }
    if let Some(verb) = storage_named(name) {
        return Some(verb);
    }
    other_named(name)
}
