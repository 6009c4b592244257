//! The classes of characters of the grammar (RDF 1.1 N-Triples, section 7).
ghost use Rattle.std.specs.Prelude.{◌≡◌};
ghost use Rattle.ntriples.specs.Characters.{within, is_pn_chars_base, is_pn_chars_u, is_pn_chars, is_digit};
ghost use Rattle.ntriples.specs.Characters.{is_letter, is_iri_character};

const PN_CHARS_BASE: [(char, char); 14] = [
    ('A', 'Z'),
    ('a', 'z'),
    ('\u{C0}', '\u{D6}'),
    ('\u{D8}', '\u{F6}'),
    ('\u{F8}', '\u{2FF}'),
    ('\u{370}', '\u{37D}'),
    ('\u{37F}', '\u{1FFF}'),
    ('\u{200C}', '\u{200D}'),
    ('\u{2070}', '\u{218F}'),
    ('\u{2C00}', '\u{2FEF}'),
    ('\u{3001}', '\u{D7FF}'),
    ('\u{F900}', '\u{FDCF}'),
    ('\u{FDF0}', '\u{FFFD}'),
    ('\u{10000}', '\u{EFFFF}'),
];

const PN_CHARS_MORE: [(char, char); 3] = [
    ('\u{B7}', '\u{B7}'),
    ('\u{300}', '\u{36F}'),
    ('\u{203F}', '\u{2040}'),
];

// Whether the character is in one of the ranges, whose ends belong to them.
fn is_within(ranges: &[(char, char)], character: char) -> bool
    ensures { result ≡ within ranges.now character }
{
    ranges
        .iter()
        .any(|range| range.0 <= character && character <= range.1)
}

pub(crate) fn is_digit(character: char) -> bool
    ensures { result ≡ is_digit character }
{
    '0' <= character && character <= '9'
}

pub(crate) fn is_letter(character: char) -> bool
    ensures { result ≡ is_letter character }
{
    ('A' <= character && character <= 'Z') || ('a' <= character && character <= 'z')
}

#[tactic(auto, unfolding(crate::specs::Characters::is_pn_chars_base))]
pub(crate) fn is_pn_chars_base(character: char) -> bool
    ensures { result ≡ is_pn_chars_base character }
{
    is_within(&PN_CHARS_BASE, character)
}

#[tactic(auto, unfolding(crate::specs::Characters::is_pn_chars_u))]
pub(crate) fn is_pn_chars_u(character: char) -> bool
    ensures { result ≡ is_pn_chars_u character }
{
    is_pn_chars_base(character) || character == '_' || character == ':'
}

#[tactic(auto, unfolding(crate::specs::Characters::is_pn_chars))]
pub(crate) fn is_pn_chars(character: char) -> bool
    ensures { result ≡ is_pn_chars character }
{
    is_pn_chars_u(character)
        || character == '-'
        || is_digit(character)
        || is_within(&PN_CHARS_MORE, character)
}

// Whether an IRI may hold the character unescaped.
#[tactic(auto, unfolding(crate::specs::Characters::is_iri_character))]
pub(crate) fn is_iri_character(character: char) -> bool
    ensures { result ≡ is_iri_character character }
{
    character > ' '
        && character != '<'
        && character != '>'
        && character != '"'
        && character != '{'
        && character != '}'
        && character != '|'
        && character != '^'
        && character != '`'
        && character != '\\'
}
