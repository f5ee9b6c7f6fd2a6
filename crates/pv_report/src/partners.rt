//! Partners: methods of two classes with one name, one descriptor and one kind (JVMS 4.6).

ghost use Rattle.std.specs.Prelude.{◌≡◌, IfOk, MatchOption};
ghost use Rattle.pv_class.specs.declared.file.Method.{Method};
ghost use Rattle.pv_class.specs.ClassFiles.{AreDistinct};
ghost use Rattle.pv_frame.specs.Programs.{is_instance};
ghost use Rattle.pv_report.specs.Partners.{IsPartner};
ghost use Rattle.pv_report.specs.Judging.{IsLikeAt};

use pv_class::{ACC_STATIC, Method, Methods};
use pv_value::Memory;

/// The place of the method of the others with the name, the descriptor and the kind of this one; `None` where there is
/// none. Out of memory is the one error.
pub fn partner_of(method: &Method, others: &Methods) -> Result<Option<usize>, Memory>
    requires { AreDistinct others.now }
    ensures { IfOk result (λ found. MatchOption found ((p : Method) → IsPartner method.now others.now p → ⊥) (λ k. IsLikeAt method.now others.now k)) }
{
    let Some(place) = others.place_of(&method.name, &method.desc)? else {
        return Ok(None);
    };
    if is_instance(&others.as_slice()[place]) == is_instance(method) {
        Ok(Some(place))
    } else {
        Ok(None)
    }
}

// Whether a method has a `this`.
fn is_instance(method: &Method) -> bool
    ensures { result ≡ is_instance method.now.flags }
{
    method.flags & ACC_STATIC == 0
}
