// Names and types.
use crate::{BuiltIn, kind_of};

#[test]
fn names_are_read_back(rt: HostRuntime) {
    assert_eq!(rt; kind_of("less(weight)"), Some(BuiltIn::LessWeight));
    assert_eq!(rt; kind_of("less"), None);
    assert_eq!(rt; BuiltIn::Neg.text(), "neg");
}
