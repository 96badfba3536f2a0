// What every refusal has.
ghost use Rattle.std.specs.Prelude.{◌≡◌, ℕ};

// A refusal, which users know by a number.
pub trait Numbered {
    ghost number_of: { Self → ℕ };

    fn number(&self) -> u32
        ensures { result ≡ number_of self.now };
}
