//! Laws of terms. Each is a function without effect, whose contract is the law.

ghost use Rattle.rdf_core.specs.Laws.{TermEqualityIsIdentity, OrderIsByParts};

/// `==` returns true for two terms if and only if all their parts are equal, so that they are the
/// same term (RDF 1.1 Concepts, sections 3.2 to 3.4).
pub fn equality_is_identity()
    ensures law { TermEqualityIsIdentity }
{}

/// `cmp` orders blank nodes before IRIs and IRIs before literals. It orders terms of one kind by
/// the bytes of their texts.
pub fn order_is_by_parts()
    ensures law { OrderIsByParts }
{}
