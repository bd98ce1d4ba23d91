//! The costs of a graph's nodes.
ghost use Rattle.std.specs.Prelude.{◌≡◌, ◌<◌, ℕ};

/// The costs of a graph's nodes, by number.
pub trait NodeCosts {
    ghost count: { Self → ℕ };

    ghost costs: { Self → ℕ → ℕ };

    /// The cost of a node.
    fn cost(&self, number: usize) -> u64
        requires { number < count self.now }
        ensures { result ≡ costs self.now number };
}
