ghost use Rattle.std.specs.Prelude.{◌≡◌, ◌+◌, ◌-◌, ◌^◌, ◌<◌, ◌≤◌, length, IfOk};
ghost use Rattle.in_syntax.specs.Streams.{Device, MovesFront, Reader, finds_end, fails_read, fails_write, one_more};

/// The source of a text.
pub trait TextIn {
    /// The bytes that it gave so far, or none if it doesn't show them; how many reads failed, how many there were, and whether the last one found
    /// the end of the text.
    ghost reader: { Self → Reader };

    /// Reads up to as many bytes as are lent, and says how many. 0 bytes for a slice that isn't empty is the end.
    fn read(&mut self, into: &mut [u8]) -> Result<usize, ()>
        requires { (reader self.old).device.failures < 2 ^ 64 - 1 }
        ensures within { IfOk result (λ n. n ≤ length into.new) }
        ensures given { MovesFront (reader self.old).device.bytes (reader self.new).device.bytes result into.new }
        ensures ended { (reader self.new).ended ≡ finds_end result into.new }
        ensures failures { (reader self.new).device.failures ≡ (reader self.old).device.failures + fails_read result }
        ensures reads { (reader self.new).reads ≡ one_more (reader self.old).reads };
}

/// The target of a text.
pub trait TextOut {
    /// The bytes that it took so far, or none if it doesn't show them; and how many writes failed.
    ghost device: { Self → Device };

    /// Writes a front of the bytes, and says how long it is. 0 of some bytes is a failure.
    fn write(&mut self, bytes: &[u8]) -> Result<usize, ()>
        requires { (device self.old).failures < 2 ^ 64 - 1 }
        ensures within { IfOk result (λ n. n ≤ length bytes.now) }
        ensures taken { MovesFront (device self.old).bytes (device self.new).bytes result bytes.now }
        ensures failures { (device self.new).failures ≡ (device self.old).failures + fails_write result bytes.now };
}
