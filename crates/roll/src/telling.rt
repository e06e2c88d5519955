// Elements that tell a site, so that a roll of them can be counted by site.
ghost use Rattle.std.specs.Prelude.{◌≡◌, ℕ};

pub trait TellsSite {
    // The site that the element tells.
    ghost told: { Self → ℕ };

    fn site(&self) -> usize
        ensures { result ≡ told self.now };
}
