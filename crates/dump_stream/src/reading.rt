//! Reading from one field to the next: what may come, and where reading stands after it.

ghost use Rattle.std.specs.Prelude.{◌≡◌, ◌-◌, [], length, IfOk, IsSome};
ghost use Rattle.dump_stream.specs.Forms.{number_from};
ghost use Rattle.dump_stream.specs.Fields.{AreFields, body_of};
ghost use Rattle.dump_stream.specs.Stream.{header_table, entry_of};
ghost use Rattle.dump_stream.specs.Machine.{form_at, after, with_field, with_entry, begun};
ghost use Rattle.dump_stream.specs.Sound.{IsSound, IsNameThere, IsAccessWhole};

use crate::fields::{data_of, has_tag, is_used, typed};
use crate::form::Form;
use crate::judge::number_at;
use crate::records::{dump_from, entry_from, header_from};
use crate::sofar::{DumpHead, Field, Sofar};
use crate::tables::{dump_form, header_form, vnode_form};
use bk_text::{Bytes, List};
use std::alloc::{AllocError, Global};
use vnode_model::{ALL_DATA, Entry, IncrementFields, MOST_VNODES};

/// The form behind a tag, where the tag may come.
pub fn form_of(sofar: &Sofar, tag: u8) -> Option<Form>
    ensures { result ≡ form_at sofar.now tag }
{
    match sofar {
        Sofar::Start => (tag == 1).then_some(Form::Opening),
        Sofar::Dump { fields } => {
            let fields = fields.as_slice();
            if tag == 2 {
                has_tag(fields, b'n').then_some(Form::Exact(0))
            } else if is_used(fields, tag) {
                None
            } else {
                dump_form(tag)
            }
        }
        Sofar::Volume { fields, .. } => {
            let fields = fields.as_slice();
            if tag == 3 {
                has_tag(fields, b'n').then_some(Form::Vnode { last: 0 })
            } else if tag == 4 {
                has_tag(fields, b'n').then_some(Form::Closing)
            } else if is_used(fields, tag) {
                None
            } else {
                header_form(tag)
            }
        }
        Sofar::Vnode {
            made,
            room,
            number,
            fields,
            ..
        } => {
            let fields = fields.as_slice();
            if tag == 3 {
                (typed(fields) && made.entries.as_slice().len() + 1 < MOST_VNODES).then_some(
                    Form::Vnode { last: *number },
                )
            } else if tag == 4 {
                typed(fields).then_some(Form::Closing)
            } else if is_used(fields, tag) {
                None
            } else {
                vnode_form(*number, *room, tag)
            }
        }
        Sofar::Ended { .. } => None,
    }
}

fn with(mut fields: List<Field>, tag: u8, payload: Bytes) -> Result<List<Field>, AllocError>
    ensures { IfOk result (λ all. all ≡ with_field fields tag payload) }
{
    fields.push(Field { tag, payload })?;
    Ok(fields)
}

fn begin(alloc: Global, dump: DumpHead, fields: &[Field]) -> Result<IncrementFields, AllocError>
    requires listed { AreFields header_table [] fields.now }
    requires named { IsNameThere fields.now }
    ensures { IfOk result (λ made. made ≡ begun dump fields.now) }
{
    let header = header_from(alloc, fields)?;
    Ok(IncrementFields {
        dump_id: dump.id,
        dump_name: dump.name,
        from: dump.from,
        to: dump.to,
        header,
        entries: List::new(alloc),
    })
}

fn add_entry(mut made: IncrementFields, entry: Entry) -> Result<IncrementFields, AllocError>
    ensures { IfOk result (λ more. more ≡ with_entry made entry) }
{
    made.entries.push(entry)?;
    Ok(made)
}

fn vnode_begun(alloc: Global, made: IncrementFields, room: usize, head: &[u8]) -> Sofar
    ensures { result ≡ Sofar.Vnode made room (number_from 0 head.now) (number_from 4 head.now) [] }
{
    Sofar::Vnode {
        made,
        room,
        number: number_at(head, 0),
        uniq: number_at(head, 4),
        fields: List::new(alloc),
    }
}

fn after_dump(
    alloc: Global,
    fields: List<Field>,
    tag: u8,
    payload: Bytes,
) -> Result<Sofar, AllocError>
    requires comes { IsSome (form_at (Sofar.Dump fields) tag) }
    requires sound { IsSound (Sofar.Dump fields) }
    ensures { IfOk result (λ next. next ≡ after (Sofar.Dump fields) tag payload) }
{
    if tag == 2 {
        let dump = dump_from(alloc, fields.as_slice())?;
        Ok(Sofar::Volume {
            dump,
            fields: List::new(alloc),
        })
    } else {
        Ok(Sofar::Dump {
            fields: with(fields, tag, payload)?,
        })
    }
}

fn after_volume(
    alloc: Global,
    dump: DumpHead,
    fields: List<Field>,
    tag: u8,
    payload: Bytes,
) -> Result<Sofar, AllocError>
    requires comes { IsSome (form_at (Sofar.Volume dump fields) tag) }
    requires sound { IsSound (Sofar.Volume dump fields) }
    ensures { IfOk result (λ next. next ≡ after (Sofar.Volume dump fields) tag payload) }
{
    if tag == 3 {
        let made = begin(alloc, dump, fields.as_slice())?;
        Ok(vnode_begun(alloc, made, ALL_DATA, payload.as_slice()))
    } else if tag == 4 {
        let made = begin(alloc, dump, fields.as_slice())?;
        Ok(Sofar::Ended { made })
    } else {
        Ok(Sofar::Volume {
            dump,
            fields: with(fields, tag, payload)?,
        })
    }
}

/// Another vnode's section begins.
fn next_vnode(
    alloc: Global,
    made: IncrementFields,
    room: usize,
    number: u32,
    uniq: u32,
    fields: List<Field>,
    head: &[u8],
) -> Result<Sofar, AllocError>
    requires { IsAccessWhole fields }
    ensures { IfOk result (λ next. next ≡ Sofar.Vnode (with_entry made (entry_of number uniq fields)) (room - length (body_of fields)) (number_from 0 head.now) (number_from 4 head.now) []) }
{
    let room = room.saturating_sub(data_of(fields.as_slice()).len());
    let entry = entry_from(alloc, number, uniq, fields);
    let made = add_entry(made, entry)?;
    Ok(vnode_begun(alloc, made, room, head))
}

/// The last vnode's section ends.
fn end_vnodes(
    alloc: Global,
    made: IncrementFields,
    number: u32,
    uniq: u32,
    fields: List<Field>,
) -> Result<Sofar, AllocError>
    requires { IsAccessWhole fields }
    ensures { IfOk result (λ next. next ≡ Sofar.Ended (with_entry made (entry_of number uniq fields))) }
{
    let entry = entry_from(alloc, number, uniq, fields);
    let made = add_entry(made, entry)?;
    Ok(Sofar::Ended { made })
}

/// A vnode's section goes on.
fn in_vnode(
    made: IncrementFields,
    room: usize,
    number: u32,
    uniq: u32,
    fields: List<Field>,
    tag: u8,
    payload: Bytes,
) -> Result<Sofar, AllocError>
    ensures { IfOk result (λ next. next ≡ Sofar.Vnode made room number uniq (with_field fields tag payload)) }
{
    let fields = with(fields, tag, payload)?;
    Ok(Sofar::Vnode {
        made,
        room,
        number,
        uniq,
        fields,
    })
}

/// Where reading stands after a field of a vnode's section, or behind it.
fn after_vnode(
    alloc: Global,
    made: IncrementFields,
    room: usize,
    number: u32,
    uniq: u32,
    fields: List<Field>,
    tag: u8,
    payload: Bytes,
) -> Result<Sofar, AllocError>
    requires { IsAccessWhole fields }
    ensures { IfOk result (λ next. next ≡ after (Sofar.Vnode made room number uniq fields) tag payload) }
{
    if tag == 3 {
        next_vnode(alloc, made, room, number, uniq, fields, payload.as_slice())
    } else if tag == 4 {
        end_vnodes(alloc, made, number, uniq, fields)
    } else {
        in_vnode(made, room, number, uniq, fields, tag, payload)
    }
}

/// Where reading stands after a field.
pub fn stand_after(
    sofar: Sofar,
    alloc: Global,
    tag: u8,
    payload: Bytes,
) -> Result<Sofar, AllocError>
    requires sound { IsSound sofar }
    requires comes { IsSome (form_at sofar tag) }
    ensures { IfOk result (λ next. next ≡ after sofar tag payload) }
{
    match sofar {
        Sofar::Start => Ok(Sofar::Dump {
            fields: List::new(alloc),
        }),
        Sofar::Dump { fields } => after_dump(alloc, fields, tag, payload),
        Sofar::Volume { dump, fields } => after_volume(alloc, dump, fields, tag, payload),
        Sofar::Vnode {
            made,
            room,
            number,
            uniq,
            fields,
        } => after_vnode(alloc, made, room, number, uniq, fields, tag, payload),
        Sofar::Ended { made } => Ok(Sofar::Ended { made }),
    }
}
