// A record as its twelve words: its type, then a word for each field, and two for a string, its place and its length.
use crate::fields::{Field, Form, Shape};

pub(crate) type Words = [u32; 12];

// The bytes of an item before its fields: the size of the output memory, and the type.
const FIELDS_AT: usize = 4;

// What an item writes: the record, the bytes that have its strings, and the size of the output memory.
#[derive(Clone, Copy)]
pub(crate) struct Draft<'a> {
    pub words: Words,
    pub strings: &'a [u8],
    pub size: usize,
}

// The number that the bytes of a field are.
fn number(field: &[u8], form: Form) -> u32 {
    match form {
        Form::Byte => u32::from(wire::read_u8(field, 0)),
        Form::Flag => u32::from(wire::read_u8(field, 0) != 0),
        Form::Word | Form::Text => u32::from(wire::read_u16(field, 0)),
        Form::Signed => signs::read_word(field, 0),
        Form::Long | Form::Setting => wire::read_u32(field, 0),
    }
}

impl<'a> Draft<'a> {
    // None where the type is not listed, or fields and strings do not fill the payload.
    pub(crate) fn parse(payload: &'a [u8]) -> Option<Draft<'a>> {
        let kind = u32::from(wire::read_u16(payload, 2));
        let shape = Shape::of(kind, wire::read_u32(payload, 4))?;
        let mut words = [kind, 0, 0, 0, 0, 0, 0, 0, 0, 0, 0, 0];
        let mut next = words[1..].iter_mut();
        let mut rest = payload.get(FIELDS_AT..)?;
        let mut string_at = FIELDS_AT.saturating_add(shape.width());
        for Field(_, form) in shape.fields() {
            let (field, after) = rest.split_at_checked(form.width())?;
            let value = number(field, *form);
            rest = after;
            if *form == Form::Text {
                *next.next()? = u32::try_from(string_at).ok()?;
                string_at = string_at.saturating_add(value as usize);
            }
            *next.next()? = value;
        }
        if string_at != payload.len() {
            return None;
        }
        Some(Draft {
            words,
            strings: payload,
            size: usize::from(wire::read_u16(payload, 0)),
        })
    }
}

// Lays the name of a field, and answers the index after it.
fn lay_name(out: &mut [u8], at: usize, name: &str) -> usize {
    let at = print::byte(out, at, b' ');
    let at = print::text(out, at, name.as_bytes());
    print::byte(out, at, b'=')
}

// Lays a record, its strings in the message, and answers the index after it.
pub(crate) fn lay(out: &mut [u8], at: usize, words: &Words, message: &[u8]) -> usize {
    let [kind, setting, ..] = *words;
    let Some(shape) = Shape::of(kind, setting) else {
        return at;
    };
    let [_, _, high, low] = kind.to_be_bytes();
    let mut at = print::hex(out, at, &[high, low]);
    let mut words = words[1..].iter().copied();
    for Field(name, form) in shape.fields() {
        at = lay_name(out, at, name);
        let word = words.next().unwrap_or(0);
        at = match form {
            Form::Byte | Form::Flag | Form::Word | Form::Long => {
                print::decimal(out, at, u64::from(word))
            }
            Form::Signed => print::signed(out, at, signs::signed32(word)),
            Form::Setting => print::hex(out, at, &word.to_be_bytes()),
            Form::Text => {
                let len = words.next().unwrap_or(0);
                print::string(out, at, b"", message, word as usize, len as usize)
            }
        };
    }
    at
}
