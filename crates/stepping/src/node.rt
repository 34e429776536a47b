// What a node is, by its kind and flag. Document 01, "Graph image".
ghost use Rattle.std.specs.Prelude.{◌≡◌};
ghost use Rattle.semantics.specs.Graph.{traits, is_reference};

use semantics::graph::Node;

// A push or push-scoped node that is marked so.
pub fn is_reference(node: Node) -> bool
    ensures { result ≡ is_reference node }
{
    match node {
        Node::Push { reference, .. } | Node::PushScoped { reference, .. } => reference,
        _ => false,
    }
}

// A record that is not there.
pub fn is_removed(node: Node) -> bool
    ensures { result ≡ (traits node).removed }
{
    matches!(node, Node::Removed)
}
