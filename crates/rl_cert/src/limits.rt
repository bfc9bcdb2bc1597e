//! The limit on what is read as a certificate.

ghost use Rattle.std.specs.Prelude.{◌≡◌};
ghost use Rattle.rl_cert.specs.declared.limits.TheConstants.{MOST_CERTIFICATE_BYTES};

/// The most bytes of a certificate that is read. Longer input is refused.
pub const MOST_CERTIFICATE_BYTES: usize = 67_108_864;

/// Does nothing; its contract states the value of the limit: 67,108,864 bytes.
pub fn limits_are()
    ensures bytes { MOST_CERTIFICATE_BYTES ≡ 67108864 }
{}
