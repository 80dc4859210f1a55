ghost use Rattle.std.specs.Prelude.{◌*◌, ◌≤◌, length};
ghost use Rattle.tables.specs.Fit.{Parts, Places, FieldPlaces, ParamPlaces, Joined, Ordered, EndsAt};

use crate::progress::Progress;

// The declarations of a program, in words that were lent, a slice for each table, since nothing is allocated: with the text and the
// code, of so many instructions, that rows point at.
#[derive(Clone, Copy)]
pub struct Tables<'a> {
    pub text: &'a [u8],
    pub code: &'a [u64],
    pub size: usize,
    pub done: Progress,
    pub(crate) datas: &'a [u64],
    pub(crate) ctors: &'a [u64],
    pub(crate) fields: &'a [u64],
    pub(crate) fns: &'a [u64],
    pub(crate) params: &'a [u64],
    ghost code_room: { size * 3 ≤ length code.now },
    ghost data_room: { done.datas * 4 ≤ length datas.now },
    ghost ctor_room: { done.ctors.end * 4 ≤ length ctors.now },
    ghost field_room: { done.fields.end ≤ length fields.now },
    ghost fn_room: { done.fns * 4 ≤ length fns.now },
    ghost param_room: { done.params.end * 2 ≤ length params.now },
    ghost data_parts: { Parts datas.now done.datas done.ctors.end },
    ghost ctor_parts: { Parts ctors.now done.ctors.end done.fields.end },
    ghost fn_parts: { Parts fns.now done.fns done.params.end },
    ghost data_joined: { Joined datas.now done.datas },
    ghost data_ordered: { Ordered datas.now done.datas },
    ghost data_end: { EndsAt datas.now done.datas done.ctors.first },
    ghost ctors_open: { done.ctors.first ≤ done.ctors.end },
    ghost data_places: { Places datas.now done.datas size },
    ghost field_places: { FieldPlaces fields.now done.fields.end size },
    ghost fn_places: { Places fns.now done.fns size },
    ghost param_places: { ParamPlaces params.now done.params.end size },
}
