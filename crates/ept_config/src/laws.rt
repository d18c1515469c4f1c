//! The facts of a configuration determine it. The law is the contract of a function that does nothing.

ghost use Rattle.ept_config.specs.Laws.{InputByFacts, ReferenceByFacts, ConfigByFacts};

/// Two inputs with the same facts are the same. So are two spatial references, and two whole configurations. So a text
/// has one configuration.
pub fn facts_law()
    ensures input { InputByFacts }
    ensures reference { ReferenceByFacts }
    ensures config { ConfigByFacts }
{}
