ghost use Rattle.boss_json.specs.Trees.{view};

use crate::JsonValue;
use crate::member::member_under;
use crate::number::whole_number;
use json::Value;

impl<'a> JsonValue for Value<'a> {
    ghost meaning = { view };

    fn under(&self, key: &str) -> Option<&Value<'a>> {
        if let Value::Object(members) = self {
            member_under(members, key)
        } else {
            None
        }
    }

    #[tactic(auto, using(crate::proofs::Views::as_str_data))]
    fn text(&self) -> Option<&[u8]> {
        Some(self.as_str()?.as_bytes())
    }

    #[tactic(auto, using(crate::proofs::Views::whole_data))]
    fn whole(&self) -> Option<i64> {
        whole_number(self.as_number()?)
    }

    fn list(&self) -> Option<&[Value<'a>]> {
        if let Value::Array(items) = self {
            Some(items.as_slice())
        } else {
            None
        }
    }
}
