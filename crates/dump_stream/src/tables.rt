//! Which tags a section may have, and the form behind each.

ghost use Rattle.std.specs.Prelude.{◌≡◌};
ghost use Rattle.dump_stream.specs.Stream.{dump_table, header_table, vnode_table};

use crate::form::Form;
use vnode_model::MOST_DATA;

/// The form behind a tag of the dump header.
pub fn dump_form(tag: u8) -> Option<Form>
    ensures { result ≡ dump_table tag }
{
    match tag {
        b'v' => Some(Form::Exact(4)),
        b'n' => Some(Form::Name),
        b't' => Some(Form::Times),
        _ => None,
    }
}

/// The form behind a tag of the volume header.
pub fn header_form(tag: u8) -> Option<Form>
    ensures { result ≡ header_table tag }
{
    match tag {
        b'i' => Some(Form::Exact(4)),
        b'v' => Some(Form::Exact(4)),
        b'n' => Some(Form::Name),
        b's' => Some(Form::Exact(1)),
        b'b' => Some(Form::Exact(1)),
        b'u' => Some(Form::Exact(4)),
        b't' => Some(Form::VolumeKind),
        b'p' => Some(Form::Exact(4)),
        b'c' => Some(Form::Exact(4)),
        b'q' => Some(Form::Exact(4)),
        b'm' => Some(Form::Exact(4)),
        b'd' => Some(Form::Exact(4)),
        b'f' => Some(Form::Exact(4)),
        b'a' => Some(Form::Exact(4)),
        b'o' => Some(Form::Exact(4)),
        b'C' => Some(Form::Exact(4)),
        b'A' => Some(Form::Exact(4)),
        b'U' => Some(Form::Exact(4)),
        b'E' => Some(Form::Exact(4)),
        b'B' => Some(Form::Exact(4)),
        b'O' => Some(Form::Text),
        b'M' => Some(Form::Text),
        b'W' => Some(Form::Week),
        b'D' => Some(Form::Exact(4)),
        b'Z' => Some(Form::Exact(4)),
        b'V' => Some(Form::Exact(4)),
        _ => None,
    }
}

/// The form behind a tag of this vnode's section, where there is room for so much data.
pub fn vnode_form(number: u32, room: usize, tag: u8) -> Option<Form>
    ensures { result ≡ vnode_table number room tag }
{
    match tag {
        b't' => Some(Form::Kind {
            directory: number % 2 == 1,
        }),
        b'l' => Some(Form::Exact(2)),
        b'v' | b'm' | b'a' | b'o' | b'g' => Some(Form::Exact(4)),
        b'b' => Some(Form::Exact(2)),
        b'p' | b's' => Some(Form::Exact(4)),
        b'A' => (number % 2 == 1).then_some(Form::Exact(192)),
        b'f' => Some(Form::Data {
            wide: false,
            limit: room.min(MOST_DATA) as u32,
        }),
        b'h' => Some(Form::Data {
            wide: true,
            limit: room.min(MOST_DATA) as u32,
        }),
        _ => None,
    }
}
