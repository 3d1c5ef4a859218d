//! Why a login is refused, and what the client is told.

ghost use Rattle.std.specs.Prelude.{◌≡◌};
ghost use Rattle.pgw_frames.specs.Frames.{frame_bytes};
ghost use Rattle.pod_conn.specs.Logins.{fatal_frame};

/// Why a login is refused.
#[derive(Clone, Copy, Debug, PartialEq, Eq)]
pub(crate) enum Fatal {
    BadToken,
    LoginRefused,
    /// No PasswordMessage with one zero-ended text.
    BadMessage,
}

impl Fatal {
    /// The bytes of the ErrorResponse.
    pub(crate) fn message(self) -> &'static [u8]
        ensures { result.now ≡ frame_bytes (fatal_frame self) }
    {
        match self {
            Fatal::BadToken => b"E\0\0\0\x2dSFATAL\0VFATAL\0C28000\0Mbad revival token\0\0",
            Fatal::LoginRefused => b"E\0\0\0\x29SFATAL\0VFATAL\0C28P01\0Mlogin refused\0\0",
            Fatal::BadMessage => b"E\0\0\0\x27SFATAL\0VFATAL\0C08P01\0Mbad message\0\0",
        }
    }
}
