ghost use Rattle.std.specs.Prelude.{◌≡◌, length, map, IfOk, OnOk, unwrap_or};
ghost use Rattle.in_symbols.specs.Names.{number_in};
ghost use Rattle.in_net.specs.Reading.{nothing_read, with_name, with_agent, with_occurrence, with_ends, reader_of, reads_arguments, reads_equations, reads_heads, reads_free, reads_on, reading_names, reading_of};
ghost use Rattle.in_net.specs.TextNet.{body_of, heads_at};

use in_symbols::{Names, Symbols};
use in_syntax::{
    Equation, Head, Name, Place, SourceFree, SourceNet, SourceRule, SymbolNo, Term, Visitor,
    walk_equations, walk_terms, with_room,
};
use sqlite_items::Items;
use std::alloc::{AllocError, Global};

/// A spot of a text: a port of an agent, by its place, with the place in the text of the agent's name; a free end, with the
/// number of its name; a boundary end; or the occurrence of the name of that number at a place.
#[derive(Clone, Copy)]
pub(crate) enum TextSpot {
    Port(usize, u8, Place),
    Free(usize, usize),
    End(usize),
    Occurrence(usize, Place),
}

/// A written agent: its symbol, the place of its name, and the number of its principal port among the spots.
#[derive(Clone, Copy)]
pub(crate) struct Agent {
    pub(crate) symbol: SymbolNo,
    pub(crate) place: Place,
    pub(crate) first: usize,
}

/// Two spots that the text joins at a place: the terms of an equation at its `~`, an argument and the port of its agent at the argument's first
/// token, a head's term and its boundary end at the term's first token. The first of them is a number of spots after `one`: the agent's principal
/// port, the head's first boundary end, or the term's spot.
#[derive(Clone, Copy)]
pub(crate) struct TextJoint {
    pub(crate) one: usize,
    pub(crate) port: usize,
    pub(crate) other: usize,
    pub(crate) place: Place,
}

/// The reading of a net or a rule so far. Spots and agents are in the order of the text; free or boundary ends are the first
/// spots.
pub(crate) struct Reading {
    pub(crate) spots: Items<TextSpot>,
    pub(crate) agents: Items<Agent>,
    pub(crate) joints: Items<TextJoint>,
    pub(crate) names: Names,
}

// By hand, so that each drop is a call, as with `Net`.
impl Drop for Reading {
    fn drop(self) {
        let Reading {
            spots: _,
            agents: _,
            joints: _,
            names: _,
        } = self;
    }
}

impl Reading {
    ghost use Rattle.in_net.specs.Reading.{nothing_read};

    /// Nothing is read yet, with room for so many free or boundary ends and for so many terms. Its only error is running out of memory.
    fn with_room(alloc: Global, ends: usize, terms: usize) -> Result<Reading, AllocError>
        ensures { IfOk result (λ r. r ≡ nothing_read) }
    {
        // A term has a spot for itself and one for each of its arguments, which are terms too.
        let spots = terms.saturating_add(terms).saturating_add(ends);
        Ok(Reading {
            spots: with_room(alloc, spots)?,
            agents: with_room(alloc, terms)?,
            joints: with_room(alloc, terms)?,
            names: Names::new(alloc),
        })
    }
}

/// The number of these terms, with all terms within them. It is the room that reading them takes, so no contract names it.
fn count_terms(terms: &[Term]) -> usize {
    let mut count = terms.len();
    for term in terms {
        count = count.saturating_add(count_terms(term.args.as_slice()));
    }
    count
}

/// How many terms these equations have.
fn count_terms_of(equations: &[Equation]) -> usize {
    let mut count = 0usize;
    for Equation { left, right, .. } in equations {
        let of_left = count_terms(left.args.as_slice());
        let of_right = count_terms(right.args.as_slice());
        count = count
            .saturating_add(2)
            .saturating_add(of_left)
            .saturating_add(of_right);
    }
    count
}

/// Adds an agent with its ports, and returns the number of its principal port among the spots.
fn add_agent(
    reading: &mut Reading,
    symbol: SymbolNo,
    arity: u8,
    place: Place,
) -> Result<usize, AllocError>
    ensures { IfOk result (λ first. (first ≡ length reading.old.spots) × (reading.new ≡ with_agent reading.old symbol arity place)) }
{
    let first = reading.spots.len();
    let agent = reading.agents.len();
    for port in 0..=arity {
        reading.spots.push(TextSpot::Port(agent, port, place))?;
    }
    reading.agents.push(Agent {
        symbol,
        place,
        first,
    })?;
    Ok(first)
}

/// The number of a name, which is added if it is new.
fn number_of(alloc: Global, names: &mut Names, name: &str) -> Result<usize, AllocError>
    ensures { IfOk result (λ number. (number ≡ unwrap_or (number_in name.now names.old) (length names.old)) × (names.new ≡ with_name names.old name.now)) }
{
    if let Some(number) = names.number_of(name) {
        return Ok(number);
    }
    let number = names.len();
    names.declare(alloc, name)?;
    Ok(number)
}

/// Adds the occurrence of a variable or free name, and returns its number among the spots.
fn add_occurrence(alloc: Global, reading: &mut Reading, name: &Name) -> Result<usize, AllocError>
    ensures { IfOk result (λ spot. (spot ≡ length reading.old.spots) × (reading.new ≡ with_occurrence reading.old name.now)) }
{
    let spot = reading.spots.len();
    let number = number_of(alloc, &mut reading.names, name.text.as_str())?;
    reading
        .spots
        .push(TextSpot::Occurrence(number, name.place))?;
    Ok(spot)
}

/// A term that was read: its spot, or a head's first boundary end; and the place of its name.
#[derive(Clone, Copy)]
struct ReadTerm {
    spot: usize,
    place: Place,
    is_head: bool,
}

/// Reads the names that a walk visits, each agent before its arguments.
#[derive(Drop)]
struct NetReader<'a> {
    alloc: Global,
    symbols: &'a Symbols,
    reading: Reading,
}

impl Visitor for NetReader<'_> {
    type Known = ReadTerm;

    ghost visits = { reading_names };

    fn name(&mut self, name: &Name, _arguments: usize) -> Result<ReadTerm, AllocError> {
        let spot = match self.symbols.number_of(name.text.as_str()) {
            Some(symbol) => {
                let arity = self.symbols.arity(symbol);
                add_agent(&mut self.reading, symbol, arity, name.place)?
            }
            None => add_occurrence(self.alloc, &mut self.reading, name)?,
        };
        Ok(ReadTerm {
            spot,
            place: name.place,
            is_head: false,
        })
    }

    fn argument(
        &mut self,
        of: ReadTerm,
        number: usize,
        argument: ReadTerm,
    ) -> Result<(), AllocError> {
        self.reading.joints.push(TextJoint {
            one: of.spot,
            port: if of.is_head { number } else { number + 1 },
            other: argument.spot,
            place: argument.place,
        })
    }

    fn equation(
        &mut self,
        left: ReadTerm,
        right: ReadTerm,
        tilde: Place,
    ) -> Result<(), AllocError> {
        self.reading.joints.push(TextJoint {
            one: left.spot,
            port: 0,
            other: right.spot,
            place: tilde,
        })
    }
}

/// Reads these equations.
fn read_equations(reader: &mut NetReader, equations: &[Equation]) -> Result<(), AllocError>
    ensures { OnOk result (reader.new ≡ reads_on reader.old (reads_equations (reader.old).symbols.now equations.now (reader.old).reading)) }
{
    walk_equations(reader, equations)
}

/// Reads the free ends, with room for so many terms.
fn read_free(alloc: Global, free: &[SourceFree], terms: usize) -> Result<Reading, AllocError>
    ensures { IfOk result (λ r. r ≡ reads_free free.now) }
{
    let mut reading = Reading::with_room(alloc, free.len(), terms)?;
    for (number, end) in free.iter().enumerate() {
        let name = number_of(alloc, &mut reading.names, end.name.text.as_str())?;
        reading.spots.push(TextSpot::Free(number, name))?;
    }
    Ok(reading)
}

/// Reads a net: its free ends, and then its equations.
pub(crate) fn read_net(
    alloc: Global,
    symbols: &Symbols,
    net: &SourceNet,
) -> Result<Reading, AllocError>
    ensures { IfOk result (λ r. r ≡ reading_of symbols.now (body_of net.now)) }
{
    let equations = net.equations.as_slice();
    let reading = read_free(alloc, net.free.as_slice(), count_terms_of(equations))?;
    let mut reader = NetReader {
        alloc,
        symbols,
        reading,
    };
    read_equations(&mut reader, equations)?;
    Ok(reader.reading)
}

/// Reads `count` boundary ends, with room for so many terms.
fn read_ends(alloc: Global, count: usize, terms: usize) -> Result<Reading, AllocError>
    ensures { IfOk result (λ r. r ≡ with_ends nothing_read count) }
{
    let mut reading = Reading::with_room(alloc, count, terms)?;
    for number in 0..count {
        reading.spots.push(TextSpot::End(number))?;
    }
    Ok(reading)
}

/// Reads the terms of a head whose first boundary end has that number.
fn read_head(reader: &mut NetReader, head: &Head, first: usize) -> Result<(), AllocError>
    ensures { OnOk result (reader.new ≡ reads_on reader.old (reads_arguments first (map (reader_of (reader.old).symbols.now) head.now.terms) 0 (reader.old).reading)) }
{
    let first = ReadTerm {
        spot: first,
        place: head.name.place,
        is_head: true,
    };
    walk_terms(reader, first, head.terms.as_slice())
}

/// Reads a rule, the boundary ends of whose heads begin at these numbers: the boundary ends, then the terms of each head in the
/// order of the text, and then its equations.
pub(crate) fn read_rule(
    alloc: Global,
    symbols: &Symbols,
    rule: &SourceRule,
    ends: usize,
    first: usize,
    second: usize,
) -> Result<Reading, AllocError>
    ensures { IfOk result (λ r. r ≡ reads_equations symbols.now rule.now.equations (reads_heads symbols.now (heads_at rule.now first second) (with_ends nothing_read ends))) }
{
    let equations = rule.equations.as_slice();
    let terms = count_terms(rule.first.terms.as_slice())
        .saturating_add(count_terms(rule.second.terms.as_slice()))
        .saturating_add(count_terms_of(equations));
    let reading = read_ends(alloc, ends, terms)?;
    let mut reader = NetReader {
        alloc,
        symbols,
        reading,
    };
    read_head(&mut reader, &rule.first, first)?;
    read_head(&mut reader, &rule.second, second)?;
    read_equations(&mut reader, equations)?;
    Ok(reader.reading)
}
