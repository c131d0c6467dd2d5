//! Where faces come from.

use basis::text::Text;
use names::{DomainName, HostName};
use objects::{ContactFace, DomainFace, HostFace};
use policy::Policy;
use std::alloc::AllocError;

/// What gives the faces of objects at one moment, and the policy. Each look-up says what it leaves.
pub trait FaceSource {
    ghost use Rattle.std.specs.Prelude.{◌≡◌, IfOk};
    ghost use Rattle.policy.specs.Rules.{PolicyRules};
    ghost use Rattle.rdap.specs.Answering.{Faces};

    /// Why it gives none.
    type Fault: From<AllocError> + Drop;

    /// These are the faces that it gives.
    ghost shows: { Self → Faces → Type 0 };

    /// The policy.
    ghost rules: { Self → PolicyRules };

    /// What a look-up may make of it.
    ghost leaves: { Self → Self → Type 0 };

    fn policy(&self) -> &Policy
        ensures { result.now ≡ rules self.now };

    fn domain(&mut self, name: &DomainName) -> Result<Option<DomainFace>, Self::Fault>
        ensures found { IfOk result (λ face. (faces : Faces) → shows self.new faces
            → face ≡ faces.domain name.now) }
        ensures policy { rules self.new ≡ rules self.old }
        ensures left { leaves self.old self.new };

    fn host(&mut self, name: &HostName) -> Result<Option<HostFace>, Self::Fault>
        ensures found { IfOk result (λ face. (faces : Faces) → shows self.new faces
            → face ≡ faces.host name.now) }
        ensures policy { rules self.new ≡ rules self.old }
        ensures left { leaves self.old self.new };

    /// The statuses are those that are shown, `linked` among them.
    fn contact(&mut self, name: &Text) -> Result<Option<ContactFace>, Self::Fault>
        ensures found { IfOk result (λ face. (faces : Faces) → shows self.new faces
            → face ≡ faces.contact name.now) }
        ensures policy { rules self.new ≡ rules self.old }
        ensures left { leaves self.old self.new };
}
