//! The calls of handles of one kind and with an interface, which are those of the small dialect, as are the places of its types.

use crate::checked::asks::ask_type;
use crate::checked::told::{tell, tell_error};
use ir_base_dialects::TypeHandle;
use ir_checked::{type_interface_handle, typed_handle};
use ir_view::types::{TypeInterfaceHandle, TypedHandle};
use testkit_lab::{Judge, Lab, Reply, SizedInterface, SizedType, Small, TextError};

/// Those that are given the type at a place.
pub(crate) fn ask_place(text: &mut Reply, lab: &Lab, call: &str, at: TypeHandle) {
    let ctx = &lab.small.context;
    match call {
        "typed_handle::from_handle" => {
            match typed_handle::from_handle::<Small, SizedType>(at, ctx) {
                Ok(Ok(typed)) => text.show("", typed.to_handle().index()),
                Ok(Err(fault)) => text.show("", fault),
                Err(error) => tell_error(text, error),
            }
        }
        "type_interface_handle::from_handle" => {
            match type_interface_handle::from_handle::<Small, SizedInterface>(at, ctx) {
                Ok(Ok(handle)) => text.show("", handle.to_handle().index()),
                Ok(Err(fault)) => text.show("", fault),
                Err(error) => tell_error(text, error),
            }
        }
        _ => ask_type(text, lab, call, at),
    }
}

/// Those that are given the sized type whose handle the lab keeps.
pub(crate) fn ask_kept(text: &mut Reply, lab: &Lab, call: &str) {
    match lab.small.sized {
        Some(sized) => ask_sized(text, lab, call, sized),
        None => text.fail(TextError::Malformed),
    }
}

fn ask_sized(text: &mut Reply, lab: &Lab, call: &str, sized: TypedHandle<SizedType, Small>) {
    let ctx = &lab.small.context;
    // A check that answers no code.
    let quiet = Judge { asked: 0, spent: 0 };
    match call {
        // The number of the type.
        "typed_handle::deref" => match typed_handle::deref(sized, ctx) {
            Ok(sized) => text.show("", sized.number),
            Err(error) => tell_error(text, error),
        },
        "typed_handle::verify" => tell(text, lab, typed_handle::verify(sized, ctx, &quiet)),
        _ => ask_interface(text, lab, call, TypeInterfaceHandle::from(sized)),
    }
}

fn ask_interface(
    text: &mut Reply,
    lab: &Lab,
    call: &str,
    sized: TypeInterfaceHandle<SizedInterface, Small>,
) {
    let ctx = &lab.small.context;
    let quiet = Judge { asked: 0, spent: 0 };
    match call {
        // The key of the type.
        "type_interface_handle::deref" => match type_interface_handle::deref(sized, ctx) {
            Ok(key) => text.debug(key),
            Err(error) => tell_error(text, error),
        },
        "type_interface_handle::verify" => {
            tell(text, lab, type_interface_handle::verify(sized, ctx, &quiet))
        }
        _ => text.fail(TextError::Malformed),
    }
}
