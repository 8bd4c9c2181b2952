//! The sentences of diagnoses, whole, with named slots in braces: errors, notes and help.

// ---- characters

pub(crate) const NO_UTF8: &str = "invalid UTF-8: byte {byte}";

pub(crate) const SAVE_AS_UTF8: &str = "save the text as UTF-8";

pub(crate) const NO_TOKEN: &str = "no token begins with `{character}`, the {name} {code}";

pub(crate) const NO_TOKEN_UNSEEN: &str = "no token begins with {code}, the {name}";

pub(crate) const MEANT_TILDE: &str = "two terms are joined by `~`";

pub(crate) const MEANT_MEETS: &str = "the two heads of a rule are joined by `><`";

pub(crate) const MEANT_INPUT: &str = "the sign of an input is `-`";

pub(crate) const MEANT_SEMICOLON: &str = "an item and an equation end with `;`";

pub(crate) const MEANT_PARENTHESES: &str = "the arguments of an agent stand in `(` and `)`";

pub(crate) const NO_ARROW: &str =
    "a rule has no arrow: it is two heads with `><` between them, and ends with `;`";

pub(crate) const COMMENT: &str = "a comment begins with `#` and ends with its line";

pub(crate) const NUMBERS_ARE_AGENTS: &str =
    "a name begins with a letter or `_`; numbers are agents, such as S(S(Z)) for two";

pub(crate) const NO_BYTE_ORDER_MARK: &str = "save the text without a byte order mark";

pub(crate) const WRITE_A_SPACE: &str = "write a space in its place";

pub(crate) const NAMES_AND_COMMENTS: &str =
    "names have letters, digits and `_`; a comment begins with `#`";

// ---- the grammar

pub(crate) const ENDS_HERE: &str = "the text ends here, where {expected} is expected";

pub(crate) const UNEXPECTED: &str = "unexpected `{found}`, where {expected} is expected";

pub(crate) const SEMICOLON_HERE: &str = "expected `;` here";

pub(crate) const IS_OPEN: &str = "this `{bracket}` is open";

pub(crate) const CLOSED_BY: &str = "it is closed by {closing}";

pub(crate) const MEANT_WORD: &str = "did you mean `{word}`?";

pub(crate) const BARE_AGENT: &str = "write `{name}` without brackets: `[]` is for heads of rules";

pub(crate) const TERM_AFTER_COMMA: &str = "a term is missing after the comma";

pub(crate) const PORT_AFTER_COMMA: &str = "a port is missing after the comma";

pub(crate) const FREE_END_AFTER_COMMA: &str = "a free end is missing after the comma";

pub(crate) const NO_ARGUMENTS: &str =
    "a symbol without auxiliary ports is written without brackets in a term";

pub(crate) const NO_EMPTY_BRACES: &str = "a pair of braces has at least one port";

pub(crate) const HEAD_BRACKETS: &str = "the terms of a head stand in `[` and `]`";

pub(crate) const EMPTY_HEAD: &str = "a head has brackets even if it has no terms: `Z[]`";

pub(crate) const ARGUMENT_BRACKETS: &str =
    "the arguments of an agent stand in `(` and `)`; `[` and `]` are for heads of rules";

pub(crate) const NET_BRACKETS: &str =
    "the net has brackets for its free ends even if it has none: `net () { .. }`";

pub(crate) const SYMBOL_DECLARATION: &str =
    "a symbol is declared with the types of its ports: `symbol S : nat+ {nat-};`";

pub(crate) const FREE_END_DECLARATION: &str = "a free end is declared with its type: `r : nat+`";

pub(crate) const RESERVED_WORD: &str = "a reserved word can't be a name";

pub(crate) const ENDS_WITH_NET: &str = "a program ends with its net: `net (..) { .. }`";

pub(crate) const ONE_SEMICOLON: &str = "a declaration or a rule ends with one `;`";

pub(crate) const RULE_BEGINS: &str = "a rule begins with the word `rule`";

pub(crate) const WHERE_EQUATIONS_STAND: &str =
    "equations stand in the braces of the net, or of a rule behind the word `with`";

pub(crate) const NOTHING_AFTER_NET: &str = "the net is not followed by `;`";

pub(crate) const NET_COMES_LAST: &str = "the net comes last, and there is one";

pub(crate) const EQUATION_FORM: &str = "an equation is a term, `~`, another term and `;`";

pub(crate) const EQUATION_END: &str = "an equation ends with `;`";

pub(crate) const PORT_FORM: &str =
    "a port is a type's name and `+` for an output, `-` for an input";

pub(crate) const TYPES_FORM: &str = "types are declared as in `type nat, bool;`";

pub(crate) const DECLARATION_END: &str = "a declaration ends with `;`";

pub(crate) const BRACES_FORM: &str = "auxiliary ports stand in braces, one pair for each class";

pub(crate) const RULE_FORM: &str = "a rule is two heads with `><` between them";

pub(crate) const RULE_END: &str =
    "a rule ends with `;`, or goes on with `with { .. }` and its equations";

pub(crate) const RULE_CLOSE: &str = "a rule with equations ends with `;` behind its closing brace";

pub(crate) const ONE_EQUATION_END: &str = "an equation ends with one `;`";

pub(crate) const EQUATIONS_FORM: &str = "equations stand in braces, each with `;` at its end";

pub(crate) const COMMAS: &str = "items in brackets are separated by `,`";

pub(crate) const LOOK_BEFORE: &str =
    "look at what stands before it: most often a `;`, a `~` or a bracket is missing";

pub(crate) const NO_MINUS_IN_NAMES: &str = "a name has letters, digits and `_`, and no `-`";

// ---- limits

pub(crate) const LONG_TEXT: &str = "the text has more than {most} bytes";

pub(crate) const LONG_WORD: &str = "this word has more than {most} characters";

pub(crate) const MORE_THAN: &str = "more than {most} {what}";

pub(crate) const LARGER: &str = "`--large` allows larger programs";

pub(crate) const NAME_AN_INNER_TERM: &str =
    "give an inner term a name: write a variable in its place, and an equation of the two";

pub(crate) const AGENT_FOR_SEVERAL: &str = "let one argument be an agent that holds several";

pub(crate) const FREE_END_FOR_SEVERAL: &str = "let one free end take an agent that holds several";

// ---- names

pub(crate) const TYPE_TWICE: &str = "the type `{name}` is declared twice";

pub(crate) const SYMBOL_TWICE: &str = "the symbol `{name}` is declared twice";

pub(crate) const FREE_END_TWICE: &str = "the free end `{name}` is declared twice";

pub(crate) const FIRST_DECLARATION: &str = "it is declared here first";

pub(crate) const RENAME_OR_LEAVE_OUT: &str = "rename one of them, or remove one";

pub(crate) const NAME_OF_A_SYMBOL: &str = "the free end `{name}` has the name of a symbol";

pub(crate) const SYMBOL_IS_HERE: &str = "the symbol is declared here";

pub(crate) const RENAME_FREE_END: &str = "give the free end another name";

pub(crate) const UNKNOWN_TYPE: &str = "the type `{name}` is not declared";

pub(crate) const DECLARE_TYPE: &str = "declare it: `type {name};`";

pub(crate) const UNKNOWN_SYMBOL: &str = "no symbol `{name}` is declared";

pub(crate) const NAMES_BEFORE_BRACKETS: &str =
    "a name before `(` or `[` is that of a declared symbol";

pub(crate) const MEANT_NAME: &str = "did you mean `{name}`?";

pub(crate) const MEANT_NAME_TOO: &str = "or `{name}`?";

pub(crate) const OTHER_COUNT: &str = "`{name}` has {arguments} here, and {ports}";

pub(crate) const OTHER_COUNT_UNKNOWN: &str = "another number of arguments than auxiliary ports";

pub(crate) const WITHOUT_PORTS: &str = "it is declared here, without auxiliary ports";

pub(crate) const PORTS_STAND_HERE: &str = "its auxiliary ports stand in braces here";

pub(crate) const WITHOUT_BRACKETS: &str =
    "it is written without brackets in a term, and with `[]` as a head";

pub(crate) const ONE_ARGUMENT_EACH: &str = "write one argument for each auxiliary port";

// ---- variables and free ends

pub(crate) const OCCURS_ONCE: &str = "the variable `{name}` occurs once; a wire has two ends";

pub(crate) const OCCURS_A_THIRD_TIME: &str =
    "the variable `{name}` occurs a third time; a wire has two ends";

pub(crate) const OCCURS_HERE: &str = "it occurs here";

pub(crate) const OCCURS_ONCE_TOO: &str = "`{name}` occurs once too";

pub(crate) const NO_FREE_END: &str = "`{name}` occurs once, and isn't a free end";

pub(crate) const ONE_NAME_FOR_BOTH: &str =
    "if they are the two ends of one wire, write one name for both";

pub(crate) const NO_SYMBOL_IS_A_VARIABLE: &str = "a name that isn't a symbol is a variable";

pub(crate) const ERASE: &str =
    "to discard a value, connect it to an eraser: a symbol of your own with a rule for each constructor, which `tools/copies.py` writes";

pub(crate) const ERASE_NO_WILDCARD: &str =
    "`_` is a name like others; to discard a value, connect it to an eraser: a symbol of your own with a rule for each constructor, which `tools/copies.py` writes";

pub(crate) const COPY: &str =
    "to use a value twice, connect it to a duplicator: a symbol of your own with a rule for each constructor, which `tools/copies.py` writes";

pub(crate) const NOT_JOINED: &str = "nothing is joined to the free end `{name}`";

pub(crate) const OCCURS_IN_THE_NET: &str =
    "its name occurs exactly once in the equations of the net";

pub(crate) const OCCURS_A_SECOND_TIME: &str = "the free end `{name}` occurs a second time";

pub(crate) const ONE_END_OF_ONE_WIRE: &str =
    "a free end is one end of one wire; to use a value twice, connect it to a duplicator";

// ---- wires

pub(crate) const CLOSED: &str = "this wire is a loop: it has no agent and no free end";

pub(crate) const GOES_ON_HERE: &str = "the wire goes on here";

pub(crate) const LEAVE_OUT_OR_JOIN: &str = "remove the equation, or connect its ends to something";

pub(crate) const TWO_TYPES: &str = "this wire joins the type `{one}` to the type `{other}`";

pub(crate) const TWO_OUTPUTS: &str = "this wire joins two outputs of type `{type}`";

pub(crate) const TWO_INPUTS: &str = "this wire joins two inputs of type `{type}`";

pub(crate) const AGENT_END: &str = "{port} is an {direction}, `{type}`";

pub(crate) const HEAD_END: &str = "{port}, `{type}`, counts as an {direction} in the right member";

pub(crate) const FREE_END: &str =
    "the free end `{name} : {type}` counts as an {direction} in the net";

pub(crate) const OUTPUT_TO_INPUT: &str =
    "a wire joins an output `+` to an input `-` of the same type: look at the declarations";

pub(crate) const TERM_IS_PRINCIPAL: &str =
    "the term stands for the principal port of `{symbol}`, which takes a `{type}`";

pub(crate) const TERM_GIVES: &str =
    "the `{type}` that it gives is at {ports}: {letters} in `a ~ {symbol}({arguments});`";

pub(crate) const SYMBOL_GIVES: &str =
    "the `{type}` that `{symbol}` gives is at {ports}: {letters} in `a ~ {symbol}({arguments});`";

pub(crate) const DECLARE_FREE_END: &str = "declare `{name} : {type}{sign}`";

pub(crate) const OR_DECLARE_FREE_END: &str =
    "or, where the net is to take it, declare `{name} : {type}{sign}`";

pub(crate) const OR_TAKES: &str =
    "or, where `{symbol}` is to take what comes here: it takes a `{type}` at auxiliary port {number}";

// ---- rules

pub(crate) const CONSTRUCTOR: &str = "`{symbol}` is a constructor: its principal port is `{type}`";

pub(crate) const DESTRUCTOR: &str = "`{symbol}` is a destructor: its principal port is `{type}`";

pub(crate) const CANNOT_MEET: &str = "the two heads of this rule can't meet";

pub(crate) const MEETING: &str = "a rule needs a constructor and a destructor of the same type";

pub(crate) const FIRST_RULE: &str = "the first one is here";

pub(crate) const SECOND_RULE: &str = "this is a second rule for `{first}` and `{second}`";

pub(crate) const SECOND_RULE_UNKNOWN: &str = "this is a second rule for its two symbols";

pub(crate) const KEEP_ONE_RULE: &str = "keep one of them: the order of the heads doesn't matter";

pub(crate) const NO_RULE: &str = "`{constructor}` and `{destructor}` can meet, but have no rule";

pub(crate) const NO_RULE_UNKNOWN: &str = "these two symbols can meet, but have no rule";

pub(crate) const ADD_RULE: &str =
    "add `rule {constructor}[{first}] >< {destructor}[{second}];`, with terms for the letters";

pub(crate) const COPIES_ARE_WRITTEN: &str =
    "`tools/copies.py` writes erasers and duplicators of a type, with all their rules";

// ---- nodes of a circle

pub(crate) const AGENT_AT: &str = "`{symbol}` at {place}";

pub(crate) const CLASS_AT: &str = "class {class} of the head `{symbol}` at {place}";

pub(crate) const ARE_APART: &str = "{one} and {other} are not in one pair of braces";

pub(crate) const JOINED_OUTSIDE: &str =
    "ports in one pair of braces may be joined outside of the rule";
