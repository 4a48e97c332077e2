// Key templates: each record by its own fields alone.
ghost use Rattle.std.specs.Prelude.{◌≡◌};
ghost use Rattle.std.proofs.Common.{rules};
ghost use Rattle.encoding.specs.Known.{key_template_knows};
ghost use Rattle.encoding.specs.Views.{key_template_view, fields_of_key_template};
ghost use Rattle.encoding.specs.KeyTemplates;

use crate::bounded::Bounded;
use crate::content::{Content, broken};
use crate::member::Member;
use crate::message::Message;
use crate::output::Output;
use crate::records::KeyTemplate;
use crate::url::TypeUrl;
use ciphers::fault::Fault;

impl Message for KeyTemplate {
    ghost fields = { fields_of_key_template };

    ghost knows = { key_template_knows };

    ghost LARGEST = { 208 };

    const LARGEST: usize = 208; // type_url 66, value 131, output_prefix_type 11

    ghost same = { λ r s. key_template_view r ≡ key_template_view s };

    ghost sound = { λ r. KeyTemplates.sound r };

    ghost modest = { Prim.search rules };

    ghost told = { λ r s e. KeyTemplates.told r s e };

    fn empty() -> KeyTemplate {
        KeyTemplate {
            type_url: TypeUrl::empty(),
            value: Bounded::empty(0),
            output_prefix_type: 0,
        }
    }

    fn add(&mut self, field: u64, content: Content<'_>) -> Result<(), Fault> {
        match field {
            1 => self.type_url.fill(content),
            2 => self.value.fill(content),
            3 => self.output_prefix_type.fill(content),
            _ => Err(broken()),
        }
    }

    fn size(&self) -> usize {
        self.type_url
            .size()
            .saturating_add(self.value.size())
            .saturating_add(self.output_prefix_type.size())
    }

    fn put(&self, out: &mut Output<'_>) {
        self.type_url.put(1, out);
        self.value.put(2, out);
        self.output_prefix_type.put(3, out);
    }
}
