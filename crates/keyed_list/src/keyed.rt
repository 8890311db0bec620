ghost use Rattle.std.specs.Prelude.{◌≡◌, ℕ};

/// What has a number by which it stands in a list, as contracts see it.
pub trait Numbered {
    /// The number.
    ghost number: { Self → ℕ };
}

/// What tells the number by which it stands in a list.
pub trait Keyed: Numbered {
    /// The number.
    fn key(&self) -> u32
        ensures { result ≡ Self.number self.now };
}
