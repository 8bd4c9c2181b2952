ghost use Rattle.std.specs.Prelude.{◌≡◌};
ghost use Rattle.in_syntax.specs.Programs.{HasText, sign_of};
ghost use Rattle.in_syntax.specs.Steps.{start, TakesSign, EndsText};
ghost use Rattle.in_syntax.specs.Steps as steps;

use crate::counts::Counts;
use crate::faults::{Code, Fault, Refusal};
use crate::machine::{Event, step, write};
use crate::places::Place;
use crate::signs::{Sign, read_sign};
use crate::states::{State, put_away};
use crate::text_limits::TextLimits;
use crate::tree::{Source, SourceNet, SourceRules, SourceSymbols, TypeNames};
use crate::words::Token;
use std::alloc::Global;

/// The parts of a program that were read, between two tokens, and the limits.
pub struct Reader {
    pub limits: TextLimits,
    pub types: TypeNames,
    pub symbols: SourceSymbols,
    pub rules: SourceRules,
    pub state: State,
}

// By hand, so that each drop is a call.
impl Drop for Reader {
    fn drop(self) {
        let Reader {
            limits: _,
            types: _,
            symbols: _,
            rules: _,
            state,
        } = self;
        put_away(state);
    }
}

impl Reader {
    pub fn new(alloc: Global, limits: TextLimits) -> Reader
        ensures { result ≡ start limits }
    {
        Reader {
            limits,
            types: TypeNames::new(alloc),
            symbols: SourceSymbols::new(alloc),
            rules: SourceRules::new(alloc),
            state: State::Item,
        }
    }

    /// Reads one token.
    pub fn take(&mut self, alloc: Global, text: &[u8], token: Token) -> Result<(), Fault>
        requires { HasText text.now token.kind token.place }
        ensures { TakesSign self.old (sign_of text.now token) token.place self.new result }
    {
        let sign = read_sign(alloc, text, token)?;
        self.take_sign(alloc, sign, token.place)
    }

    /// Reads one sign, that of the token at this place.
    pub fn take_sign(&mut self, alloc: Global, sign: Sign, place: Place) -> Result<(), Fault>
        ensures { TakesSign self.old sign place self.new result }
    {
        let counts = Counts {
            limits: self.limits,
            types: self.types.len(),
            symbols: self.symbols.len(),
            rules: self.rules.len(),
        };
        match step(&mut self.state, alloc, counts, sign)? {
            Event::Goes => {}
            Event::Types(names) => {
                self.types.append(names)?;
                write(&mut self.state, State::Item);
            }
            Event::Symbol(symbol) => {
                self.symbols.push(symbol.into_inner())?;
                write(&mut self.state, State::Item);
            }
            Event::Rule(rule) => {
                self.rules.push(rule.into_inner())?;
                write(&mut self.state, State::Item);
            }
            Event::Refuses(code) => return Err(refused(code, place)),
        }
        Ok(())
    }

    /// The program, if the text ends here.
    pub fn finish(self, end: Place) -> Result<Source, Fault>
        ensures { EndsText self end result }
    {
        let Reader {
            limits,
            types,
            symbols,
            rules,
            state,
        } = self;
        match net_of(state) {
            Some(net) => Ok(Source {
                limits,
                types,
                symbols,
                rules,
                net,
            }),
            None => Err(refused(Code::E02, end)),
        }
    }
}

fn net_of(state: State) -> Option<SourceNet>
    ensures { result ≡ steps.net_of state }
{
    match state {
        State::Done(net) => Some(net),
        unfinished => {
            put_away(unfinished);
            None
        }
    }
}

fn refused(code: Code, place: Place) -> Fault
    ensures { result ≡ steps.fault_at code place }
{
    Fault::Refused(Refusal::at(code, place))
}
