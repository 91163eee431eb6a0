//! Laws of the arrays of all kinds, gathered. The functions are empty: each contract is the law.
ghost use Rattle.judy_tenants.specs.Growth.{CallsAddOne, KindsAreLawful};

/// An array of any kind survives changes of other arrays, and is empty exactly if its reference is
/// empty.
pub(crate) fn kinds_are_lawful()
    ensures { KindsAreLawful }
{
    judy_kinds::laws::arrays_are_kept();
    judy_kinds::laws::only_nothing_is_empty();
}

/// A call adds one entry if it asks for a new one, and otherwise none.
pub(crate) fn calls_add_one()
    ensures { CallsAddOne }
{
    judy_tree::laws::content_is_sound();
    judy_string::laws::content_is_sound();
    judy_bytes::laws::content_is_sound();
}
