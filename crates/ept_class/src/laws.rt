//! What holds of every set of classes. Each law is the contract of a function that does nothing.

ghost use Rattle.ept_class.specs.Laws.{MembersMakeTheSet, ClassesHaveASet, AMemberIsAClass};

/// Two sets with the same members are the same set. Any classes are the members of a set. A set that is not empty has a
/// member.
pub fn class_set_law()
    ensures once { MembersMakeTheSet }
    ensures each { ClassesHaveASet }
    ensures some { AMemberIsAClass }
{}
