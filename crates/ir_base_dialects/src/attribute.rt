//! Attributes, the questions that a dialect answers of them, and dictionaries of them.
ghost use Rattle.std.specs.Prelude.{◌≡◌, ◌&&◌, ℕ, Bool, true, false, Option, Some, is_some, nat_eq, IfOk, IfErr};
ghost use Rattle.std.specs.Option.{option_copied, option_copied_mut};
ghost use Rattle.ir_base_dialects.specs.declared.interfaces.TheConstants.{OUTLINED_ATTRIBUTE};
ghost use Rattle.ir_model.specs.declared.error.CoreError.TheVariants.{OutOfMemory};
ghost use Rattle.std.specs.Borrow.{sem, LendsIf};

pub use crate::attribute_dict::AttributeDict;
use crate::dialects::Dialects;
use crate::interfaces;
use crate::interfaces::AttrInterfaceMarker;
pub use crate::pairs::Iter;
use crate::type_handle::TypeHandle;
use ir_base_identifiers::AttrId;
use ir_model::CoreError;
use std::alloc::Global;

/// A type of attributes of one kind of the dialect.
///
/// It stands for pliron's trait `Attribute`.
pub trait Attribute<D: Dialects>: Eq {
    ghost KIND: { ℕ };

    /// The kind.
    const KIND: u32;

    // The attribute that stands for a value.
    ghost attr_of: { Self → D.Attr };

    // The value for which an attribute stands.
    ghost value_of: { D.Attr → Option Self };

    // The attribute with another value in the place of its own.
    ghost with_value: { D.Attr → Self → D.Attr };

    /// The attribute that stands for this value.
    fn into_attr(self) -> D::Attr
        ensures { result ≡ attr_of self };

    /// The value for which an attribute stands, where its kind is this one.
    fn of_attr(attr: &D::Attr) -> Option<&Self>
        ensures { option_copied result ≡ value_of attr.now };

    /// The value for which an attribute stands, to write, where its kind is this one.
    fn of_attr_mut(attr: &mut D::Attr) -> Option<&mut Self>
        ensures* writes_back { sem 𝓛 (LendsIf D.Attr.row Self.row attr.entry result (with_value attr.old) attr.old) }
        ensures value { option_copied_mut result ≡ value_of attr.old };

    // The attribute that stands for a value gives it back.
    ghost given_back: { (a : Self) → value_of (attr_of a) ≡ Some a };

    // There is a value exactly where the kind is this one.
    ghost of_kind: { (x : D.Attr) → is_some (value_of x) ≡ nat_eq (D.attr_kind_of x) KIND };

    // Two values are equal exactly where their attributes are.
    ghost equal_attrs: { (a b : Self) → D.Attr.eq (attr_of a) (attr_of b) ≡ Self.eq a b };

    // A value that was put is there.
    ghost written: { (x : D.Attr) (a : Self) → is_some (value_of x) ≡ true → value_of (with_value x a) ≡ Some a };

    // Another value keeps the kind.
    ghost keeps_kind: { (x : D.Attr) (a : Self) → D.attr_kind_of (with_value x a) ≡ D.attr_kind_of x };

    /// The id of the attribute. `OutOfMemory` where a growth was refused.
    final fn get_attr_id(&self, alloc: Global) -> Result<AttrId, CoreError>
        ensures id { IfOk result (λ id. id ≡ D.attr_id_of KIND) }
        ensures error { IfErr result (λ error. error ≡ OutOfMemory) }
    {
        Self::get_attr_id_static(alloc)
    }

    /// The id of such attributes. `OutOfMemory` where a growth was refused.
    final fn get_attr_id_static(alloc: Global) -> Result<AttrId, CoreError>
        ensures id { IfOk result (λ id. id ≡ D.attr_id_of KIND) }
        ensures error { IfErr result (λ error. error ≡ OutOfMemory) }
    {
        D::attr_id(alloc, Self::KIND)
    }
}

/// Whether the attribute's kind implements the interface.
pub fn attr_impls<I: AttrInterfaceMarker, D: Dialects>(attr: &D::Attr) -> bool
    ensures { result ≡ D.attr_impls_of (D.attr_kind_of attr.now) I.NUMBER }
{
    D::attr_impls(D::attr_kind(attr), I::NUMBER)
}

/// Whether such attributes implement the interface.
pub fn attr_impls_static<T: Attribute<D>, I: AttrInterfaceMarker, D: Dialects>() -> bool
    ensures { result ≡ D.attr_impls_of T.KIND I.NUMBER }
{
    D::attr_impls(T::KIND, I::NUMBER)
}

/// The type of an attribute: `None` where its kind doesn't implement typed attributes.
pub fn attr_type<D: Dialects>(attr: &D::Attr) -> Option<TypeHandle>
    ensures { result ≡ D.attr_type_of attr.now }
{
    D::attr_type(attr)
}

/// Whether the attribute is to be outlined: where its kind implements outlined attributes, and the dialect says so of it.
pub fn attr_should_outline<D: Dialects>(attr: &D::Attr) -> bool
    ensures { result ≡ (D.attr_impls_of (D.attr_kind_of attr.now) OUTLINED_ATTRIBUTE && D.attr_outline_of attr.now) }
{
    D::attr_impls(D::attr_kind(attr), interfaces::OUTLINED_ATTRIBUTE) && D::attr_outline(attr)
}
