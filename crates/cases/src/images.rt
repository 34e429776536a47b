// The check of an image: whole, with one byte changed, or cut off.
use case_list::exported::TOLD;
use case_list::{exported, list, places};
use pozhdaghi::reading::pozhdaghi_check;

// 0, F, N and M.
const NUMBERS: usize = 4;

// The image with one byte changed. The byte is put back, as later cases change the same image. The list names no place behind the image; there
// nothing would be changed.
fn check_changed(image: &mut [u8], at: usize, value: u8, told: &mut [u64]) {
    let kept = list::byte(image, at);
    list::put_byte(image, at, value);
    pozhdaghi_check(image, told);
    list::put_byte(image, at, kept);
}

// The first bytes of the image.
fn check_cut(image: &[u8], length: usize, told: &mut [u64]) {
    let n = length.min(image.len());
    pozhdaghi_check(&image[..n], told);
}

fn check(case: &[u8], image: &mut [u8], told: &mut [u64]) {
    let place = list::short(case, places::PLACE) as usize;
    match list::byte(case, 0) {
        places::CHANGED => check_changed(image, place, list::byte(case, places::VALUE), told),
        places::CUT => check_cut(image, place, told),
        _ => pozhdaghi_check(image, told),
    }
}

// Writes what a check answers, and answers how many numbers that are.
pub fn answer(case: &[u8], image: &mut [u8], out: &mut [u32]) -> usize {
    let mut told = [0u64; TOLD];
    check(case, image, &mut told);
    exported::put_answer(out, &told, 0, NUMBERS)
}
